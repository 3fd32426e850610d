//! What follows the name in a declarator.

ghost use Rattle.std.specs.Prelude.{◌≡◌, IfOk, OnOk, map};
ghost use Rattle.stk_ctype.specs.Types.{type_of};
ghost use Rattle.stk_ctype.specs.Structs.{structs_of};
ghost use Rattle.stk_ctype.specs.Sound.{IsSound};
ghost use Rattle.stk_tree.specs.View.{view_tail, view_dimension, view_parameter, dimensions, parameters};
ghost use Rattle.stk_type_rules.specs.Facts.{AreSoundFacts, fact_of};
ghost use Rattle.stk_type_rules.specs.Outcome.{Gives, MakesFact};
ghost use Rattle.stk_typing.specs.Locals.{AreSoundLocals, local_of};
ghost use Rattle.stk_declarators.specs.Tails.{TailShape, arrays_typed, function_typed, tail_typed, counted_sizes, are_scalars, tail_type};
ghost use Rattle.stk_declarators.specs.Rows.{IsTail, IsShape, IsSoundTail, file_scope};

use crate::functions::function_rule;
use crate::{File, Params, parameters, scope};
use std::alloc::Global;
use stk_ctype::{CType, Names};
use stk_tree::{Dimension, Param, Tail};
use stk_type_rules::{Broken, Constancy, NodeFact, Untyped, is_scalar};
use stk_typing::{Locals, Size, declared_type, dimensions, unevaluated};

/// What follows the name: the sizes of array parts; or the parameters of a function, and whether it may take more
/// arguments.
#[derive(Drop)]
pub enum Tailed {
    Arrays(Vec<Size>),
    Function(Params, bool),
}

// Types array parts.
fn array_tail(
    f: &File,
    locals: &Locals,
    facts: &mut Vec<NodeFact>,
    list: &[Dimension],
) -> Result<Tailed, Untyped>
    requires locals { AreSoundLocals (structs_of f.now.names.now) (map local_of locals.now) }
    requires sound { AreSoundFacts (structs_of f.now.names.now) (map fact_of facts.old.items) }
    ensures gives { Gives (IsTail (map local_of locals.now) (map local_of locals.now)) (arrays_typed (file_scope f.now locals.now) (dimensions (map view_dimension list.now))) result (map fact_of facts.old.items) (map fact_of facts.new.items) }
    ensures sound { OnOk result (AreSoundFacts (structs_of f.now.names.now) (map fact_of facts.new.items)) }
    ensures types { IfOk result (IsSoundTail (structs_of f.now.names.now)) }
{
    let s = scope(f.alloc, f.bytes, f.names, locals);
    let sizes = dimensions(&unevaluated(&s), facts, list)?;
    Ok(Tailed::Arrays(sizes))
}

// Types parameters.
fn function_tail(
    f: &File,
    locals: &mut Locals,
    facts: &mut Vec<NodeFact>,
    defines: bool,
    list: &[Param],
    more: bool,
) -> Result<Tailed, Untyped>
    requires locals { AreSoundLocals (structs_of f.now.names.now) (map local_of locals.old) }
    requires sound { AreSoundFacts (structs_of f.now.names.now) (map fact_of facts.old.items) }
    ensures gives { Gives (IsTail (map local_of locals.old) (map local_of locals.new)) (function_typed (file_scope f.now locals.old) defines (parameters (map view_parameter list.now)) more) result (map fact_of facts.old.items) (map fact_of facts.new.items) }
    ensures sound { OnOk result (AreSoundFacts (structs_of f.now.names.now) (map fact_of facts.new.items)) }
    ensures locals { OnOk result (AreSoundLocals (structs_of f.now.names.now) (map local_of locals.new)) }
    ensures types { IfOk result (IsSoundTail (structs_of f.now.names.now)) }
{
    let params = parameters(f, locals, facts, defines, list)?;
    Ok(Tailed::Function(params, more))
}

/// Types what follows the name in a declarator, of a function definition or not (C11 6.7.6): a fact for each of its
/// nodes is put behind the others, and the names of parameters come into force behind the locals. The answer says what
/// it is; or it is the first node that a rule refuses, by the lowest rule that does.
pub fn tail(
    f: &File,
    locals: &mut Locals,
    facts: &mut Vec<NodeFact>,
    defines: bool,
    t: &Tail,
) -> Result<Tailed, Untyped>
    requires locals { AreSoundLocals (structs_of f.now.names.now) (map local_of locals.old) }
    requires sound { AreSoundFacts (structs_of f.now.names.now) (map fact_of facts.old.items) }
    ensures gives { Gives (IsTail (map local_of locals.old) (map local_of locals.new)) (tail_typed (file_scope f.now locals.old) defines (view_tail t.now)) result (map fact_of facts.old.items) (map fact_of facts.new.items) }
    ensures sound { OnOk result (AreSoundFacts (structs_of f.now.names.now) (map fact_of facts.new.items)) }
    ensures locals { OnOk result (AreSoundLocals (structs_of f.now.names.now) (map local_of locals.new)) }
    ensures types { IfOk result (IsSoundTail (structs_of f.now.names.now)) }
{
    match t {
        Tail::Arrays(list) => array_tail(f, locals, facts, list.as_slice()),
        Tail::Unspecified => Ok(Tailed::Function(Params::none(f.alloc), true)),
        Tail::NoParams => Ok(Tailed::Function(Params::none(f.alloc), false)),
        Tail::Params(list, more) => {
            function_tail(f, locals, facts, defines, list.as_slice(), *more)
        }
    }
}

/// Whether the elements of an array of unknown size with these parts are scalars: there is no other part, and this type
/// is one.
pub fn are_scalars(sizes: &[Size], ty: &CType) -> bool
    ensures { result ≡ are_scalars sizes.now (type_of ty.now) }
{
    match sizes {
        [_] => is_scalar(ty),
        _ => false,
    }
}

// Array parts whose outermost one has the size that is counted, where it has none.
fn counted_sizes(count: Option<u64>, sizes: Vec<Size>) -> Vec<Size>
    ensures { result.items ≡ counted_sizes count sizes.items }
{
    let mut all = sizes;
    if let Some(count) = count {
        if let Some(first) = all.first_mut() {
            if let Size::Open = *first {
                *first = Size::Sized(Constancy::Number(i128::from(count)));
            }
        }
    }
    all
}

/// What the rules make of a declarator, of a function definition or not: the type that it declares, with the type that
/// its base and stars name, what follows its name, and the number of elements that its initialiser counts (C11 6.7.6).
/// Rule 4 refuses an incomplete element, an inner array part without a size, and a result that no function returns;
/// rule 5 a size that isn't a constant of at least 1 and a type that is too large; rule 15 a parameter of a definition
/// without a name. An outermost array part without a size stays one where nothing is counted.
pub fn tail_type(
    alloc: Global,
    names: &Names,
    defines: bool,
    count: Option<u64>,
    ty: CType,
    tailed: Tailed,
) -> Result<NodeFact, Broken>
    requires sound { IsSound (structs_of names.now) (type_of ty) }
    requires tail { IsSoundTail (structs_of names.now) tailed }
    ensures fact { (t : TailShape) → IsShape t tailed → MakesFact (tail_type (structs_of names.now) defines count (type_of ty) t) result }
    ensures sound { IfOk result (λ f. IsSound (structs_of names.now) (type_of f.ty)) }
{
    match tailed {
        Tailed::Arrays(sizes) => {
            let sizes = counted_sizes(count, sizes);
            declared_type(alloc, names, sizes.as_slice(), ty)
        }
        Tailed::Function(params, more) => function_rule(alloc, names, defines, ty, params, more),
    }
}
