//! Uses of tags.

ghost use Rattle.std.specs.Prelude.{◌≡◌, ◌++◌, OnOk};
ghost use Rattle.stk_tree.specs.View.{view_base, view_base_form};
ghost use Rattle.stk_declarators.specs.Uses.{form_uses, base_uses};

use stk_base::{NoMemory, Span};
use stk_tree::{Base, BaseForm};

/// A use of a tag, given by its span: as that of a struct, or of an enumeration.
#[derive(Clone, Copy, Debug, PartialEq, Eq)]
pub enum TagUse {
    Struct(Span),
    Enumeration(Span),
}

// What the form of a base uses.
fn form_uses(form: &BaseForm, out: &mut Vec<TagUse>) -> Result<(), NoMemory>
    ensures { OnOk result (out.new.items ≡ out.old.items ++ form_uses (view_base_form form.now)) }
{
    match form {
        BaseForm::StructRef(tag) => out.push(TagUse::Struct(*tag))?,
        BaseForm::EnumRef(tag) => out.push(TagUse::Enumeration(*tag))?,
        BaseForm::Words(_)
        | BaseForm::StructDef(_, _)
        | BaseForm::EnumDef(_, _, _)
        | BaseForm::Named(_) => {}
    }
    Ok(())
}

/// Puts the use that a base without braces is behind the others; one with braces is none.
pub fn base_uses(b: &Base, out: &mut Vec<TagUse>) -> Result<(), NoMemory>
    ensures { OnOk result (out.new.items ≡ out.old.items ++ base_uses (view_base b.now)) }
{
    form_uses(&b.form, out)
}
