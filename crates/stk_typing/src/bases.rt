//! The type that a base names where nothing is declared.

ghost use Rattle.std.specs.Prelude.{◌≡◌, IfOk, IfSome, Some};
ghost use Rattle.std.specs.Option.{option_map, option_copied};
ghost use Rattle.stk_ctype.specs.Types.{type_of};
ghost use Rattle.stk_ctype.specs.Names.{find, tag_of};
ghost use Rattle.stk_ctype.specs.Structs.{Structs, structs_of};
ghost use Rattle.stk_ctype.specs.Sound.{IsSound, IsSoundSymbol, IsSoundTag};
ghost use Rattle.stk_tree.specs.View.{view_base_form};
ghost use Rattle.stk_type_rules.specs.Facts.{Fits, names_type};
ghost use Rattle.stk_type_rules.specs.Outcome.{MakesFact};
ghost use Rattle.stk_typing.specs.Specifiers.{basic_type};
ghost use Rattle.stk_typing.specs.Bases.{words_rule, struct_rule, enum_rule, typedef_rule, base_rule};

use crate::specifiers::basic_type;
use stk_ctype::{CType, IntKind, Names, Symbol, Tag};
use stk_tree::{BaseForm, Fixed};
use stk_type_rules::{Broken, NodeFact};

// Basic words.
fn words_rule(words: &[Fixed]) -> Result<NodeFact, Broken>
    ensures fact { MakesFact (words_rule (basic_type words.now)) result }
    ensures sound { (structs : Structs) → IfOk result (λ f. IsSound structs (type_of f.ty)) }
{
    match basic_type(words) {
        None => Err(Broken::Rule(2)),
        Some(ty) => Ok(NodeFact::names_type(ty)),
    }
}

// `struct tag`.
fn struct_rule(tag: Option<Tag>) -> Result<NodeFact, Broken>
    ensures fact { MakesFact (struct_rule tag) result }
    ensures sound { (structs : Structs) → IfSome tag (IsSoundTag structs) → IfOk result (λ f. IsSound structs (type_of f.ty)) }
{
    match tag {
        None => Err(Broken::Rule(1)),
        Some(Tag::Struct(id)) => Ok(NodeFact::names_type(CType::Struct(id))),
        Some(Tag::Enumeration) => Err(Broken::Rule(17)),
    }
}

// `enum tag`.
fn enum_rule(tag: Option<Tag>) -> Result<NodeFact, Broken>
    ensures fact { MakesFact (enum_rule tag) result }
    ensures sound { (structs : Structs) → IfOk result (λ f. IsSound structs (type_of f.ty)) }
{
    match tag {
        None => Err(Broken::Rule(1)),
        Some(Tag::Struct(_)) => Err(Broken::Rule(17)),
        Some(Tag::Enumeration) => Ok(NodeFact::names_type(CType::Int(IntKind::Int))),
    }
}

// A type, named.
fn named(ty: &CType) -> Result<NodeFact, Broken>
    ensures fact { MakesFact (Fits (names_type (type_of ty.now))) result }
    ensures sound { (structs : Structs) → IsSound structs (type_of ty.now) → IfOk result (λ f. IsSound structs (type_of f.ty)) }
{
    let ty = ty.copy()?;
    Ok(NodeFact::names_type(ty))
}

// A typedef name.
fn typedef_rule(symbol: Option<&Symbol>) -> Result<NodeFact, Broken>
    ensures fact { MakesFact (typedef_rule (option_copied symbol.entry)) result }
    ensures sound { (structs : Structs) → IfSome (option_copied symbol.entry) (IsSoundSymbol structs) → IfOk result (λ f. IsSound structs (type_of f.ty)) }
{
    match symbol {
        Some(Symbol::TypeDef(ty)) => named(ty),
        Some(Symbol::Object(_)) | Some(Symbol::Function(_)) | Some(Symbol::Enumerator(_)) | None =>
            { Err(Broken::Rule(1)) }
    }
}

/// The type that a base without braces names (C11 6.7.2). Rule 1 refuses a tag that isn't declared, rule 2 words that
/// name no type, rule 17 a tag of another kind. A base with braces stands in no type name, and rule 1 refuses it here.
pub fn base_rule(bytes: &[u8], names: &Names, form: &BaseForm) -> Result<NodeFact, Broken>
    ensures fact { MakesFact (base_rule bytes.now names.now (view_base_form form.now)) result }
    ensures sound { IfOk result (λ f. IsSound (structs_of names.now) (type_of f.ty)) }
{
    match form {
        BaseForm::Words(words) => words_rule(words.as_slice()),
        BaseForm::StructRef(tag) => struct_rule(names.tag(tag.text(bytes))),
        BaseForm::EnumRef(tag) => enum_rule(names.tag(tag.text(bytes))),
        BaseForm::Named(at) => typedef_rule(names.find(at.text(bytes))),
        BaseForm::StructDef(_, _) | BaseForm::EnumDef(_, _, _) => Err(Broken::Rule(1)),
    }
}
