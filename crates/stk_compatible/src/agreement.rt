//! Whether a declaration agrees with one before it.

ghost use Rattle.std.specs.Prelude.{◌≡◌, if◌then◌else◌, map, IfOk};
ghost use Rattle.stk_compatible.specs.declared.agreement.Agreement.TheVariants.{Differ};
ghost use Rattle.stk_compatible.specs.Same.{same};
ghost use Rattle.stk_ctype.specs.Types.{type_of, signature_of, row_of};
ghost use Rattle.stk_compatible.specs.Agreeing.{by_same, agree_count, is_unspecified, agree_parameters, agree_signature, agree};

use crate::comparing::{is_same, is_same_row, same_truth};
use std::alloc::Global;
use stk_base::NoMemory;
use stk_ctype::{CType, Signature};

/// What a later declaration makes of the type that an earlier one gave a name: they differ; the earlier type holds; or
/// the later one, which says more.
#[derive(Clone, Copy, Debug, PartialEq, Eq)]
pub enum Agreement {
    Differ,
    Old,
    New,
}

// Types that say equally much.
fn by_same(same: bool) -> Agreement
    ensures { result ≡ by_same same }
{
    match same {
        true => Agreement::Old,
        false => Agreement::Differ,
    }
}

// The sizes of two arrays.
fn agree_count(old: Option<u64>, new: Option<u64>) -> Agreement
    ensures { result ≡ agree_count old new }
{
    match old {
        None => match new {
            None => Agreement::Old,
            Some(_) => Agreement::New,
        },
        Some(m) => match new {
            None => Agreement::Old,
            Some(n) => by_same(m == n),
        },
    }
}

// Whether a function has `( )`.
fn is_unspecified(params: &[CType], more: bool) -> bool
    ensures { result ≡ is_unspecified (row_of (map type_of params.now)) more }
{
    match params {
        [] => more,
        [_, _rest @ ..] => false,
    }
}

// The parameters of two functions.
fn agree_parameters<'a>(
    alloc: Global,
    old: &'a [CType],
    more: bool,
    new: &'a [CType],
    others: bool,
) -> Result<Agreement, NoMemory>
    ensures { IfOk result (λ a. a ≡ agree_parameters (row_of (map type_of old.now)) more (row_of (map type_of new.now)) others) }
{
    if is_unspecified(new, others) {
        return Ok(Agreement::Old);
    }
    if is_unspecified(old, more) {
        return Ok(Agreement::New);
    }
    if !same_truth(more, others) {
        return Ok(Agreement::Differ);
    }
    let same = is_same_row(alloc, old, new)?;
    Ok(by_same(same))
}

/// What a later declaration of a function makes of the signature that an earlier one gave it (C11 6.7.6.3p15).
pub fn agree_signature<'a>(
    alloc: Global,
    old: &'a Signature,
    new: &'a Signature,
) -> Result<Agreement, NoMemory>
    ensures { IfOk result (λ a. a ≡ agree_signature (signature_of old.now) (signature_of new.now)) }
{
    if !is_same(alloc, &old.result, &new.result)? {
        return Ok(Agreement::Differ);
    }
    agree_parameters(
        alloc,
        old.params.as_slice(),
        old.more,
        new.params.as_slice(),
        new.more,
    )
}

// The types of two arrays.
fn agree_arrays<'a>(
    alloc: Global,
    old: &'a CType,
    new: &'a CType,
    m: Option<u64>,
    n: Option<u64>,
) -> Result<Agreement, NoMemory>
    ensures { IfOk result (λ a. a ≡ (if same (type_of old.now) (type_of new.now) then agree_count m n else Differ)) }
{
    match is_same(alloc, old, new)? {
        true => Ok(agree_count(m, n)),
        false => Ok(Agreement::Differ),
    }
}

// Types of other forms.
fn agree_others<'a>(alloc: Global, old: &'a CType, new: &'a CType) -> Result<Agreement, NoMemory>
    ensures { IfOk result (λ a. a ≡ by_same (same (type_of old.now) (type_of new.now))) }
{
    let same = is_same(alloc, old, new)?;
    Ok(by_same(same))
}

/// What a later declaration makes of the type that an earlier one gave an object or a function (C11 6.2.7p3): they
/// differ; the earlier type holds; or the later one, which gives the size of an array or the parameters of a function
/// that was unknown.
pub fn agree<'a>(alloc: Global, old: &'a CType, new: &'a CType) -> Result<Agreement, NoMemory>
    ensures { IfOk result (λ a. a ≡ agree (type_of old.now) (type_of new.now)) }
{
    match (old, new) {
        (CType::Array(t, c), CType::Array(u, d)) => agree_arrays(alloc, t.get(), u.get(), *c, *d),
        (CType::Function(f), CType::Function(g)) => agree_signature(alloc, f.get(), g.get()),
        _ => agree_others(alloc, old, new),
    }
}
