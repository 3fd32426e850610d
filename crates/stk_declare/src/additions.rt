//! The entry that a declarator of file scope adds.

ghost use Rattle.std.specs.Prelude.{◌≡◌, IfOk, IfSome};
ghost use Rattle.std.specs.Option.{option_copied, option_map};
ghost use Rattle.stk_ctype.specs.Types.{function_type, signature_of, type_of};
ghost use Rattle.stk_ctype.specs.Structs.{Structs};
ghost use Rattle.stk_ctype.specs.Sound.{IsSound, IsSoundSignature, IsSoundSymbol, RestsOn};
ghost use Rattle.stk_compatible.specs.declared.agreement.Agreement.TheVariants.{Old};
ghost use Rattle.stk_compatible.specs.Making.{made_signature};
ghost use Rattle.stk_declare.specs.Answers.{listed};
ghost use Rattle.stk_declare.specs.Symbols.{was_marked, marked, signature_in, meaning, holding, says_more, added};

use crate::SymbolSort;
use crate::symbols::agreement;
use std::alloc::Global;
use stk_base::{List, NoMemory};
use stk_compatible::Agreement;
use stk_ctype::{CType, NameEntry, SharedSignature, Signature, Symbol};

// Whether a function was marked as not returning.
fn was_marked(earlier: Option<&Symbol>) -> bool
    ensures { result ≡ was_marked (option_copied earlier.entry) }
{
    match earlier {
        Some(Symbol::Function(f)) => f.no_return,
        None | Some(Symbol::TypeDef(_)) | Some(Symbol::Object(_)) | Some(Symbol::Enumerator(_)) => {
            false
        }
    }
}

/// Copies of types in a row.
pub(crate) fn copied_row(alloc: Global, row: &[CType]) -> Result<List<CType>, NoMemory>
    ensures { IfOk result (λ ts. ts ≡ row.now) }
{
    let mut all = Vec::new(alloc);
    for ty in row {
        all.push(ty.copy()?)?;
    }
    Ok(List::from_vec(all))
}

// An equal signature with this mark.
fn marked(alloc: Global, mark: bool, f: &Signature) -> Result<Signature, NoMemory>
    ensures is { IfOk result (λ g. g ≡ made_signature (marked mark (signature_of f.now))) }
    ensures sound { (structs : Structs) → IsSoundSignature structs (signature_of f.now) → IfOk result (λ g. IsSoundSignature structs (signature_of g)) }
{
    Ok(Signature {
        result: f.result.copy()?,
        params: copied_row(alloc, f.params.as_slice())?,
        more: f.more,
        no_return: mark,
    })
}

// The signature of a function's type.
fn signature_in(ty: &CType) -> Option<&Signature>
    ensures { option_map signature_of (option_copied result) ≡ signature_in (type_of ty.now) }
{
    match ty {
        CType::Function(f) => Some(f.get()),
        CType::Void | CType::Int(_) | CType::Pointer(_) | CType::Array(_, _) | CType::Struct(_) => {
            None
        }
    }
}

// What a name of this sort and type means.
fn meaning(alloc: Global, what: SymbolSort, mark: bool, ty: &CType) -> Result<Symbol, NoMemory>
    ensures is { IfOk result (λ s. s ≡ meaning what mark (type_of ty.now)) }
    ensures sound { (structs : Structs) → IsSound structs (type_of ty.now) → IfOk result (IsSoundSymbol structs) }
{
    match what {
        SymbolSort::TypeName => Ok(Symbol::TypeDef(ty.copy()?)),
        SymbolSort::Object => Ok(Symbol::Object(ty.copy()?)),
        SymbolSort::Function => match signature_in(ty) {
            Some(f) => Ok(Symbol::Function(marked(alloc, mark, f)?)),
            None => Ok(Symbol::Object(ty.copy()?)),
        },
    }
}

// The type of a function with this signature.
fn as_type(alloc: Global, f: &Signature) -> Result<CType, NoMemory>
    ensures is { IfOk result (λ t. type_of t ≡ function_type (signature_of f.now)) }
    ensures sound { (structs : Structs) → IsSoundSignature structs (signature_of f.now) → IfOk result (λ t. IsSound structs (type_of t)) }
{
    let copy = marked(alloc, f.no_return, f)?;
    Ok(CType::Function(SharedSignature::new(alloc, copy)?))
}

// What a name of this sort means whose type an earlier declaration gave.
fn earlier_meaning<'a>(
    alloc: Global,
    what: SymbolSort,
    mark: bool,
    earlier: Option<&'a Symbol>,
    ty: &CType,
) -> Result<Symbol, NoMemory>
    ensures is { IfOk result (λ s. s ≡ meaning what mark (holding (option_copied earlier.entry) (type_of ty.now) Old)) }
    ensures sound { (structs : Structs) → IfSome (option_copied earlier.entry) (IsSoundSymbol structs) → IsSound structs (type_of ty.now) → IfOk result (IsSoundSymbol structs) }
{
    match earlier {
        Some(Symbol::Object(old)) => meaning(alloc, what, mark, old),
        Some(Symbol::Function(old)) => {
            let whole = as_type(alloc, old)?;
            meaning(alloc, what, mark, &whole)
        }
        None | Some(Symbol::TypeDef(_)) | Some(Symbol::Enumerator(_)) => {
            meaning(alloc, what, mark, ty)
        }
    }
}

// What a name of this sort means, by how its type agrees with an earlier one.
fn agreed_meaning<'a>(
    alloc: Global,
    what: SymbolSort,
    mark: bool,
    earlier: Option<&'a Symbol>,
    ty: &CType,
    agreement: Agreement,
) -> Result<Symbol, NoMemory>
    ensures is { IfOk result (λ s. s ≡ meaning what mark (holding (option_copied earlier.entry) (type_of ty.now) agreement)) }
    ensures sound { (structs : Structs) → IfSome (option_copied earlier.entry) (IsSoundSymbol structs) → IsSound structs (type_of ty.now) → IfOk result (IsSoundSymbol structs) }
{
    match agreement {
        Agreement::Old => earlier_meaning(alloc, what, mark, earlier, ty),
        Agreement::New | Agreement::Differ => meaning(alloc, what, mark, ty),
    }
}

// Whether a declaration says something new: its type, or a mark.
fn says_more(was: bool, now: bool, agreement: Agreement) -> bool
    ensures { result ≡ says_more was now agreement }
{
    match agreement {
        Agreement::Differ | Agreement::New => true,
        Agreement::Old => now && !was,
    }
}

/// The entry that a declarator adds with this name, sort, mark and type, whose name meant this before; `None` where it
/// says nothing new.
pub(crate) fn addition<'a>(
    alloc: Global,
    name: &[u8],
    what: SymbolSort,
    mark: bool,
    earlier: Option<&'a Symbol>,
    ty: &'a CType,
) -> Result<Option<NameEntry>, NoMemory>
    ensures is { IfOk result (λ e. listed e ≡ added name.now what mark (option_copied earlier.entry) (type_of ty.now)) }
    ensures rests { (structs : Structs) → IfSome (option_copied earlier.entry) (IsSoundSymbol structs) → IsSound structs (type_of ty.now) → IfOk result (λ e. IfSome e (RestsOn structs)) }
{
    let agreement = agreement(alloc, earlier, ty)?;
    let was = was_marked(earlier);
    if !says_more(was, mark, agreement) {
        return Ok(None);
    }
    let symbol = agreed_meaning(alloc, what, mark || was, earlier, ty, agreement)?;
    let name = List::from_vec(Vec::from_slice(alloc, name)?);
    Ok(Some(NameEntry::Symbol { name, symbol }))
}
