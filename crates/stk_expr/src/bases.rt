//! Bases without braces, made (C11 6.7.2).
ghost use Rattle.std.specs.Prelude.{◌≡◌};
ghost use Rattle.stk_tree.specs.Syntax as s;
ghost use Rattle.stk_tree.specs.View.{view_base_form};

use stk_base::{List, Span};
use stk_tree::{BaseForm, Fixed};

/// Words of the basic types.
pub fn words(list: List<Fixed>) -> BaseForm
    ensures { view_base_form result ≡ s.words list }
{
    BaseForm::Words(list)
}

/// `struct tag`
pub fn struct_ref(tag: Span) -> BaseForm
    ensures { view_base_form result ≡ s.struct_ref tag }
{
    BaseForm::StructRef(tag)
}

/// `enum tag`
pub fn enum_ref(tag: Span) -> BaseForm
    ensures { view_base_form result ≡ s.enum_ref tag }
{
    BaseForm::EnumRef(tag)
}

/// A typedef name.
pub fn named(at: Span) -> BaseForm
    ensures { view_base_form result ≡ s.named at }
{
    BaseForm::Named(at)
}
