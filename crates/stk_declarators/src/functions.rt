//! The type of a function.

ghost use Rattle.std.specs.Prelude.{◌≡◌, IfOk, map};
ghost use Rattle.stk_ctype.specs.Types.{type_of};
ghost use Rattle.stk_ctype.specs.Structs.{structs_of};
ghost use Rattle.stk_ctype.specs.Sound.{IsSound};
ghost use Rattle.stk_type_rules.specs.Outcome.{MakesFact};
ghost use Rattle.stk_declarators.specs.Parameters.{Parameter, types_of, have_unnamed};
ghost use Rattle.stk_declarators.specs.Functions.{may_return, function_rule};
ghost use Rattle.stk_declarators.specs.Rows.{AreSoundTypes};

use crate::Params;
use std::alloc::Global;
use stk_base::List;
use stk_ctype::{CType, Names, SharedSignature, Signature};
use stk_type_rules::{Broken, NodeFact, is_complete};

// Whether a function, of a definition or not, may return this type.
fn may_return(names: &Names, defines: bool, ty: &CType) -> bool
    requires { IsSound (structs_of names.now) (type_of ty.now) }
    ensures { result ≡ may_return (structs_of names.now) defines (type_of ty.now) }
{
    match ty {
        CType::Void | CType::Int(_) | CType::Pointer(_) => true,
        CType::Array(_, _) | CType::Function(_) => false,
        CType::Struct(_) => !defines || is_complete(names, ty),
    }
}

/// What the rules make of a function's declarator, with its result and its parameters (C11 6.7.6.3, 6.9.1). Rule 4
/// refuses a result that is an array, a function, or in a definition an incomplete struct; rule 15 a definition with a
/// parameter without a name.
pub(crate) fn function_rule(
    alloc: Global,
    names: &Names,
    defines: bool,
    given: CType,
    params: Params,
    more: bool,
) -> Result<NodeFact, Broken>
    requires given { IsSound (structs_of names.now) (type_of given) }
    requires params { AreSoundTypes (structs_of names.now) params.types.items }
    ensures fact { (ps : List Parameter) → map type_of params.types.items ≡ types_of ps → params.unnamed ≡ have_unnamed ps → MakesFact (function_rule (structs_of names.now) defines (type_of given) ps more) result }
    ensures sound { IfOk result (λ f. IsSound (structs_of names.now) (type_of f.ty)) }
{
    if !may_return(names, defines, &given) {
        return Err(Broken::Rule(4));
    }
    if defines && params.unnamed {
        return Err(Broken::Rule(15));
    }
    let signature = Signature {
        result: given,
        params: List::from_vec(params.types),
        more,
        no_return: false,
    };
    Ok(NodeFact::declares(CType::Function(SharedSignature::new(alloc, signature)?)))
}
