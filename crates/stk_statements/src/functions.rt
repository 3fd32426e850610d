//! Function definitions.

ghost use Rattle.std.specs.Prelude.{◌≡◌, [], map, IfOk, OnOk};
ghost use Rattle.stk_ctype.specs.Types.{type_of};
ghost use Rattle.stk_ctype.specs.Structs.{Structs, structs_of};
ghost use Rattle.stk_ctype.specs.Sound.{IsSound};
ghost use Rattle.stk_tree.specs.View.{view_base, view_declarator, view_function, view_statement};
ghost use Rattle.stk_type_rules.specs.Facts.{AreSoundFacts, fact_of};
ghost use Rattle.stk_type_rules.specs.Outcome.{Gives};
ghost use Rattle.stk_typing.specs.Locals.{AreSoundLocals, local_of};
ghost use Rattle.stk_typing.specs.Typing.{base_typed};
ghost use Rattle.stk_declarators.specs.Rows.{file_scope};
ghost use Rattle.stk_statements.specs.Places.{body_in};
ghost use Rattle.stk_function_types.specs.Functions.{body_typed, function_typed, head_typed};
ghost use Rattle.stk_statements.specs.Rows.{AnyFact, IsHeaded};

use crate::forms::by_nothing;
use crate::places::Context;
use crate::rules::storage_rule;
use crate::statements::{parts, statement};
use stk_address_taken::NodeSet;
use stk_ctype::CType;
use stk_declarators::{File, scope, tail, tail_type};
use stk_tree::{Declr, Function, Stmt, StmtForm};
use stk_type_rules::{NodeFact, Untyped, fact, own};
use stk_typing::{Locals, base, starred};

// Types the head of a function, whose base names this type, and brings its parameters into force. The answer is its
// result.
fn head(
    f: &File,
    locals: &mut Locals,
    facts: &mut Vec<NodeFact>,
    ty: &CType,
    d: &Declr,
) -> Result<CType, Untyped>
    requires ty { IsSound (structs_of f.now.names.now) (type_of ty.now) }
    requires locals { AreSoundLocals (structs_of f.now.names.now) (map local_of locals.old) }
    requires sound { AreSoundFacts (structs_of f.now.names.now) (map fact_of facts.old.items) }
    ensures gives { Gives (IsHeaded (map local_of locals.old) (map local_of locals.new)) (head_typed (file_scope f.now locals.old) (type_of ty.now) (view_declarator d.now)) result (map fact_of facts.old.items) (map fact_of facts.new.items) }
    ensures sound { OnOk result (AreSoundFacts (structs_of f.now.names.now) (map fact_of facts.new.items)) }
    ensures locals { OnOk result (AreSoundLocals (structs_of f.now.names.now) (map local_of locals.new)) }
{
    let tailed = tail(f, locals, facts, true, &d.tail)?;
    let returns = starred(f.alloc, d.stars, ty.copy()?)?;
    let copy = returns.copy()?;
    let made = tail_type(f.alloc, f.names, true, None, copy, tailed);
    own(facts, d.node.number, made)?;
    Ok(returns)
}

// Types the body of a function.
fn body(
    p: &Context,
    locals: &mut Locals,
    facts: &mut Vec<NodeFact>,
    x: &Stmt,
) -> Result<(), Untyped>
    requires locals { AreSoundLocals (structs_of p.now.file.names.now) (map local_of locals.old) }
    requires sound { AreSoundFacts (structs_of p.now.file.names.now) (map fact_of facts.old.items) }
    ensures gives { Gives AnyFact (body_typed (body_in p.now locals.old) (view_statement x.now)) result (map fact_of facts.old.items) (map fact_of facts.new.items) }
    ensures sound { OnOk result (AreSoundFacts (structs_of p.now.file.names.now) (map fact_of facts.new.items)) }
{
    match &x.form {
        StmtForm::Block(list) => {
            parts(p, locals, facts, list.as_slice())?;
            by_nothing(facts, x.node.number)
        }
        StmtForm::Plain(_)
        | StmtForm::If(_, _, _)
        | StmtForm::Switch(_, _)
        | StmtForm::While(_, _)
        | StmtForm::Do(_, _)
        | StmtForm::For(_, _, _, _)
        | StmtForm::Break
        | StmtForm::Continue
        | StmtForm::Return(_) => statement(p, locals, facts, x),
    }
}

// The type that a function's base names.
fn base_type(
    f: &File,
    locals: &Locals,
    facts: &mut Vec<NodeFact>,
    x: &Function,
) -> Result<CType, Untyped>
    requires locals { AreSoundLocals (structs_of f.now.names.now) (map local_of locals.now) }
    requires sound { AreSoundFacts (structs_of f.now.names.now) (map fact_of facts.old.items) }
    ensures gives { Gives (λ y t. type_of t ≡ y.ty) (base_typed (file_scope f.now locals.now) (view_base x.now.base)) result (map fact_of facts.old.items) (map fact_of facts.new.items) }
    ensures sound { OnOk result (AreSoundFacts (structs_of f.now.names.now) (map fact_of facts.new.items)) }
    ensures ty { IfOk result (λ t. IsSound (structs_of f.now.names.now) (type_of t)) }
{
    let s = scope(f.alloc, f.bytes, f.names, locals);
    let at = base(&s, facts, &x.base)?;
    let ty = fact(facts, at).ty.copy()?;
    Ok(ty)
}

/// Types a function definition whose unit's node has this number, where these are the declarators whose names are
/// operands of `&` (C11 6.9.1): a fact for each of its nodes is put behind the others; or the first node that a rule
/// refuses, by the lowest rule that does.
pub fn function(
    f: &File,
    taken: &NodeSet,
    facts: &mut Vec<NodeFact>,
    node: u32,
    x: &Function,
) -> Result<(), Untyped>
    requires { AreSoundFacts (structs_of f.now.names.now) (map fact_of facts.old.items) }
    ensures gives { Gives AnyFact (function_typed f.now.bytes.now f.now.names.now taken.now node (view_function x.now)) result (map fact_of facts.old.items) (map fact_of facts.new.items) }
    ensures sound { OnOk result (AreSoundFacts (structs_of f.now.names.now) (map fact_of facts.new.items)) }
{
    let mut locals = Locals::new(f.alloc);
    let ty = base_type(f, &locals, facts, x)?;
    let returns = head(f, &mut locals, facts, &ty, &x.declr)?;
    let p = Context {
        file: *f,
        taken,
        returns: &returns,
        outer: 0,
        can_break: false,
        can_continue: false,
    };
    body(&p, &mut locals, facts, &x.body)?;
    own(facts, node, storage_rule(x.storage))?;
    Ok(())
}
