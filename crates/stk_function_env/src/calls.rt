//! What calls call.

ghost use Rattle.std.specs.Prelude.{◌≡◌};
ghost use Rattle.std.specs.Option.{option_map, option_copied};
ghost use Rattle.stk_ctype.specs.Types.{signature_of};
ghost use Rattle.stk_tree.specs.View.{view_expression};
ghost use Rattle.stk_function_types.specs.Nodes.{typing_in};
ghost use Rattle.stk_operators.specs.Shown.{library_shown};
ghost use Rattle.stk_meaning.specs.Libraries.{called_name, called_signature, called_library};

use stk_base::Span;
use stk_ctype::Signature;
use stk_function_types::FunctionTypes;
use stk_operators::{Library, library_named};
use stk_tree::Expr;

// The name that a call calls: a function is called by its name (C11 6.5.2.2).
fn called_name(callee: &Expr) -> Option<Span>
    ensures { result ≡ called_name (view_expression callee.now) }
{
    callee.form.as_name()
}

/// The signature of what a call calls; none where it doesn't call a function by its name.
pub fn called_signature<'a>(types: &'a FunctionTypes, callee: &Expr) -> Option<&'a Signature>
    ensures { option_map signature_of (option_copied result) ≡ called_signature (typing_in types.now) (view_expression callee.now) }
{
    match called_name(callee) {
        None => None,
        Some(at) => types.signature_at(at),
    }
}

/// What a call calls in the library; none where it calls another function.
pub fn called_library(types: &FunctionTypes, callee: &Expr) -> Option<Library>
    ensures { option_map library_shown result ≡ called_library (typing_in types.now) (view_expression callee.now) }
{
    match called_name(callee) {
        None => None,
        Some(at) => match types.signature_at(at) {
            None => None,
            Some(f) => library_named(at.text(types.bytes()), f),
        },
    }
}
