//! What a declarator of file scope declares, and how it agrees with earlier declarations of its name.

ghost use Rattle.std.specs.Prelude.{◌≡◌, ◌&&◌, false, not, if◌then◌else◌, map, None, IfOk};
ghost use Rattle.std.specs.Option.{option_map, option_copied};
ghost use Rattle.stk_ctype.specs.Types.{function_type, row_of, signature, type_of, signature_of};
ghost use Rattle.stk_ctype.specs.Structs.{Structs, structs_of};
ghost use Rattle.stk_ctype.specs.Sound.{IsSound};
ghost use Rattle.stk_tree.specs.View.{view_initialiser, maybe_initialiser};
ghost use Rattle.stk_type_rules.specs.Facts.{Ruled};
ghost use Rattle.stk_type_rules.specs.Outcome.{MakesFact};
ghost use Rattle.stk_declarators.specs.Tails.{TailShape};
ghost use Rattle.stk_declarators.specs.Rows.{IsShape};
ghost use Rattle.stk_compatible.specs.Agreeing.{agree};
ghost use Rattle.stk_declare.specs.Symbols.{agreement_first, is_begun, is_differ, says_otherwise, sort_by_type, sort_by_tail, sort_of, clashes, agreement, is_open_array, may_be_object, may_be, may_begin, agreed_rule, made_rule, declarator_rule, is_unsized, lacks_size, may_lack_size, size_first};

use crate::additions::copied_row;
use std::alloc::Global;
use stk_base::NoMemory;
use stk_compatible::{Agreement, agree, agree_signature};
use stk_ctype::{CType, Names, SharedSignature, Signature, Symbol};
use stk_declarators::Tailed;
use stk_tree::{Init, Storage};
use stk_type_rules::{Broken, NodeFact, is_complete, is_void};
use stk_typing::{Size, fits};

/// What a declarator declares: a typedef name, an object or a function.
#[derive(Clone, Copy, Debug, PartialEq, Eq)]
pub enum SymbolSort {
    TypeName,
    Object,
    Function,
}

// An object, or a function where a typedef names the type of one.
fn sort_by_type(ty: &CType) -> SymbolSort
    ensures { result ≡ sort_by_type (type_of ty.now) }
{
    match ty {
        CType::Void | CType::Int(_) | CType::Pointer(_) | CType::Array(_, _) | CType::Struct(_) => {
            SymbolSort::Object
        }
        CType::Function(_) => SymbolSort::Function,
    }
}

// What follows the name decides, or the type alone where nothing does.
fn sort_by_tail(t: &Tailed, ty: &CType) -> SymbolSort
    ensures { (s : TailShape) → IsShape s t.now → result ≡ sort_by_tail s (type_of ty.now) }
{
    match t {
        Tailed::Function(_, _) => SymbolSort::Function,
        Tailed::Arrays(sizes) => match sizes.as_slice() {
            [] => sort_by_type(ty),
            [_, _rest @ ..] => SymbolSort::Object,
        },
    }
}

/// What a declarator declares, behind a storage word, with what follows its name and the type that its base and stars
/// name.
pub(crate) fn sort_of(word: Option<Storage>, t: &Tailed, ty: &CType) -> SymbolSort
    ensures { (s : TailShape) → IsShape s t.now → result ≡ sort_of word s (type_of ty.now) }
{
    match word {
        Some(Storage::Typedef) => SymbolSort::TypeName,
        None | Some(Storage::Extern) | Some(Storage::Static) => sort_by_tail(t, ty),
    }
}

// Whether a name stands for something of another sort, or for what can't be declared twice.
fn clashes(earlier: Option<&Symbol>, what: SymbolSort) -> bool
    ensures { result ≡ clashes (option_copied earlier.entry) what }
{
    match earlier {
        None => false,
        Some(Symbol::TypeDef(_)) | Some(Symbol::Enumerator(_)) => true,
        Some(Symbol::Object(_)) => match what {
            SymbolSort::Object => false,
            SymbolSort::TypeName | SymbolSort::Function => true,
        },
        Some(Symbol::Function(_)) => match what {
            SymbolSort::Function => false,
            SymbolSort::TypeName | SymbolSort::Object => true,
        },
    }
}

/// Whether a type is an array of unknown size.
pub(crate) fn is_open_array(ty: &CType) -> bool
    ensures { result ≡ is_open_array (type_of ty.now) }
{
    match ty {
        CType::Array(_, count) => count.is_none(),
        CType::Void | CType::Int(_) | CType::Pointer(_) | CType::Struct(_) | CType::Function(_) => {
            false
        }
    }
}

// Whether an object has an initialiser.
fn is_begun(i: &Option<Init>) -> bool
    ensures { result ≡ is_begun (maybe_initialiser (option_map view_initialiser i.now)) }
{
    match i {
        None => false,
        Some(_) => true,
    }
}

// Whether an object, with an initialiser or without, may be incomplete.
fn may_lack_size(word: Option<Storage>, begun: bool) -> bool
    ensures { result ≡ may_lack_size word begun }
{
    match word {
        None | Some(Storage::Typedef) | Some(Storage::Static) => false,
        Some(Storage::Extern) => !begun,
    }
}

// Whether an object, with an initialiser or without, may have this type.
fn may_be_object(names: &Names, word: Option<Storage>, begun: bool, ty: &CType) -> bool
    requires { IsSound (structs_of names.now) (type_of ty.now) }
    ensures { result ≡ may_be_object (structs_of names.now) word begun (type_of ty.now) }
{
    if may_lack_size(word, begun) {
        !is_void(ty)
    } else {
        is_complete(names, ty)
    }
}

// Whether what is declared, with an initialiser or without, may have this type.
fn may_be(names: &Names, word: Option<Storage>, what: SymbolSort, begun: bool, ty: &CType) -> bool
    requires { IsSound (structs_of names.now) (type_of ty.now) }
    ensures { result ≡ may_be (structs_of names.now) word what begun (type_of ty.now) }
{
    match what {
        SymbolSort::TypeName => !is_open_array(ty),
        SymbolSort::Object => may_be_object(names, word, begun, ty),
        SymbolSort::Function => true,
    }
}

// Whether what is declared with this type may have this initialiser or none.
fn may_begin(what: SymbolSort, ty: &CType, i: &Option<Init>) -> bool
    ensures { result ≡ may_begin what (type_of ty.now) (maybe_initialiser (option_map view_initialiser i.now)) }
{
    match i {
        None => true,
        Some(i) => match what {
            SymbolSort::Object => fits(ty, i),
            SymbolSort::TypeName | SymbolSort::Function => false,
        },
    }
}

// How a type agrees with a function that was declared before.
fn agree_function<'a>(
    alloc: Global,
    old: &'a Signature,
    ty: &'a CType,
) -> Result<Agreement, NoMemory>
    ensures { IfOk result (λ a. a ≡ agree (function_type (signature_of old.now)) (type_of ty.now)) }
{
    match ty {
        CType::Function(new) => agree_signature(alloc, old, new.get()),
        CType::Void | CType::Int(_) | CType::Pointer(_) | CType::Array(_, _) | CType::Struct(_) => {
            Ok(Agreement::Differ)
        }
    }
}

/// How a type agrees with what an earlier declaration says.
pub(crate) fn agreement<'a>(
    alloc: Global,
    earlier: Option<&'a Symbol>,
    ty: &'a CType,
) -> Result<Agreement, NoMemory>
    ensures { IfOk result (λ a. a ≡ agreement (option_copied earlier.entry) (type_of ty.now)) }
{
    match earlier {
        None => Ok(Agreement::New),
        Some(Symbol::TypeDef(_)) | Some(Symbol::Enumerator(_)) => Ok(Agreement::Differ),
        Some(Symbol::Object(old)) => agree(alloc, old, ty),
        Some(Symbol::Function(old)) => agree_function(alloc, old, ty),
    }
}

// What is declared with this type, by how it agrees with earlier declarations.
fn agreed_rule(
    names: &Names,
    word: Option<Storage>,
    what: SymbolSort,
    i: &Option<Init>,
    fact: NodeFact,
    agreement: Agreement,
) -> Result<NodeFact, Broken>
    requires { IsSound (structs_of names.now) (type_of fact.ty) }
    ensures fact { MakesFact (agreed_rule (structs_of names.now) word what (maybe_initialiser (option_map view_initialiser i.now)) (type_of fact.ty) agreement) result }
    ensures sound { IfOk result (λ f. IsSound (structs_of names.now) (type_of f.ty)) }
{
    match agreement {
        Agreement::Differ => return Err(Broken::Rule(3)),
        Agreement::Old | Agreement::New => {}
    }
    if !may_be(names, word, what, is_begun(i), &fact.ty) {
        return Err(Broken::Rule(4));
    }
    if !may_begin(what, &fact.ty, i) {
        return Err(Broken::Rule(16));
    }
    let NodeFact { ty, .. } = fact;
    Ok(NodeFact::declares(ty))
}

// The same of what its parts make.
fn made_rule<'a>(
    alloc: Global,
    names: &Names,
    word: Option<Storage>,
    what: SymbolSort,
    earlier: Option<&'a Symbol>,
    i: &Option<Init>,
    made: Result<NodeFact, Broken>,
) -> Result<NodeFact, Broken>
    requires { IfOk made (λ f. IsSound (structs_of names.now) (type_of f.ty)) }
    ensures fact { (r : Ruled) → MakesFact r made → MakesFact (made_rule (structs_of names.now) word what (option_copied earlier.entry) (maybe_initialiser (option_map view_initialiser i.now)) r) result }
    ensures sound { IfOk result (λ f. IsSound (structs_of names.now) (type_of f.ty)) }
{
    match made {
        Err(broken) => Err(broken),
        Ok(fact) => {
            let agreement = agreement(alloc, earlier, &fact.ty)?;
            agreed_rule(names, word, what, i, fact, agreement)
        }
    }
}

/// Whether the outermost array part has no size, and no initialiser counts one.
pub(crate) fn is_unsized(count: Option<u64>, sizes: &[Size]) -> bool
    ensures { result ≡ is_unsized count sizes.now }
{
    match count {
        Some(_) => false,
        None => match sizes {
            [] => false,
            [Size::Open, ..] => true,
            [Size::Sized(_), ..] => false,
        },
    }
}

/// Whether a declarator behind this storage word, with this initialiser or none, lacks a size, by what follows its name
/// and how many elements its initialiser counts.
pub(crate) fn lacks_size(
    word: Option<Storage>,
    i: &Option<Init>,
    t: &Tailed,
    count: Option<u64>,
) -> bool
    ensures { (s : TailShape) → IsShape s t.now → result ≡ lacks_size word (is_begun (maybe_initialiser (option_map view_initialiser i.now))) s count }
{
    match t {
        Tailed::Arrays(sizes) => {
            is_unsized(count, sizes.as_slice()) && !may_lack_size(word, is_begun(i))
        }
        Tailed::Function(_, _) => false,
    }
}

// Whether types differ.
fn is_differ(agreement: Agreement) -> bool
    ensures { result ≡ is_differ agreement }
{
    match agreement {
        Agreement::Differ => true,
        Agreement::Old | Agreement::New => false,
    }
}

// The type of a function with these parameters, whatever the rules make of it.
fn said_type(alloc: Global, whole: &CType, params: &[CType], more: bool) -> Result<CType, NoMemory>
    ensures { IfOk result (λ t. type_of t ≡ function_type (signature (type_of whole.now) (row_of (map type_of params.now)) more false)) }
{
    let signature = Signature {
        result: whole.copy()?,
        params: copied_row(alloc, params)?,
        more,
        no_return: false,
    };
    Ok(CType::Function(SharedSignature::new(alloc, signature)?))
}

/// Whether a function's declarator says another type than an earlier declaration.
pub(crate) fn says_otherwise<'a>(
    alloc: Global,
    earlier: Option<&'a Symbol>,
    t: &Tailed,
    whole: &CType,
) -> Result<bool, NoMemory>
    ensures { (s : TailShape) → IsShape s t.now → IfOk result (λ b. b ≡ says_otherwise (option_copied earlier.entry) s (type_of whole.now)) }
{
    match t {
        Tailed::Arrays(_) => Ok(false),
        Tailed::Function(params, more) => {
            let ty = said_type(alloc, whole, params.types.as_slice(), *more)?;
            Ok(is_differ(agreement(alloc, earlier, &ty)?))
        }
    }
}

/// What refuses a declarator that says another type than an earlier declaration or doesn't: that first.
pub(crate) fn agreement_first(
    differs: bool,
    made: Result<NodeFact, Broken>,
) -> Result<NodeFact, Broken>
    ensures fact { (r : Ruled) → MakesFact r made → MakesFact (agreement_first differs r) result }
    ensures sound { (structs : Structs) → IfOk made (λ f. IsSound structs (type_of f.ty)) → IfOk result (λ f. IsSound structs (type_of f.ty)) }
{
    match made {
        Ok(fact) => Ok(fact),
        Err(Broken::Rule(rule)) => Err(Broken::Rule(if differs { 3 } else { rule })),
        Err(Broken::NoMemory) => Err(Broken::NoMemory),
    }
}

/// What refuses a declarator that lacks a size or doesn't: the missing size first.
pub(crate) fn size_first(lacking: bool, made: Result<NodeFact, Broken>) -> Result<NodeFact, Broken>
    ensures fact { (r : Ruled) → MakesFact r made → MakesFact (size_first lacking r) result }
    ensures sound { (structs : Structs) → IfOk made (λ f. IsSound structs (type_of f.ty)) → IfOk result (λ f. IsSound structs (type_of f.ty)) }
{
    match made {
        Ok(fact) => Ok(fact),
        Err(Broken::Rule(rule)) => Err(Broken::Rule(if lacking { 4 } else { rule })),
        Err(Broken::NoMemory) => Err(Broken::NoMemory),
    }
}

/// What the rules make of a declarator of file scope: behind a storage word, of what is declared, what its name meant
/// before, its initialiser, and what its parts make (C11 6.7, 6.2.7, 6.7.9, 6.9.2). Rule 3 refuses a name that stood
/// for something else or has another type, 4 a type that is incomplete where it must not be, 16 an initialiser that
/// doesn't fit, of a typedef name or of a function; else what refused the parts.
pub(crate) fn declarator_rule<'a>(
    alloc: Global,
    names: &Names,
    word: Option<Storage>,
    what: SymbolSort,
    earlier: Option<&'a Symbol>,
    i: &Option<Init>,
    made: Result<NodeFact, Broken>,
) -> Result<NodeFact, Broken>
    requires { IfOk made (λ f. IsSound (structs_of names.now) (type_of f.ty)) }
    ensures fact { (r : Ruled) → MakesFact r made → MakesFact (declarator_rule (structs_of names.now) word what (option_copied earlier.entry) (maybe_initialiser (option_map view_initialiser i.now)) r) result }
    ensures sound { IfOk result (λ f. IsSound (structs_of names.now) (type_of f.ty)) }
{
    if clashes(earlier, what) {
        return Err(Broken::Rule(3));
    }
    made_rule(alloc, names, word, what, earlier, i, made)
}
