//! Whether two types are the same.

ghost use Rattle.std.specs.Prelude.{◌≡◌, ◌&&◌, map, IfOk};
ghost use Rattle.stk_ctype.specs.declared.kind.IntKind.{IntKind};
ghost use Rattle.stk_ctype.specs.Types.{type_of, signature_of, row_of};
ghost use Rattle.stk_compatible.specs.Same.{kind_number, same_count, same_truth, same, same_row, same_signature};
ghost use Rattle.stk_compatible.specs.Pairs.{are_same, pairs_of};

use std::alloc::Global;
use stk_base::NoMemory;
use stk_ctype::{CType, IntKind, Signature};

// A number for each integer kind.
fn kind_number(kind: IntKind) -> u8
    ensures { result ≡ kind_number kind }
{
    match kind {
        IntKind::Bool => 0,
        IntKind::Char => 1,
        IntKind::SChar => 2,
        IntKind::UChar => 3,
        IntKind::Short => 4,
        IntKind::UShort => 5,
        IntKind::Int => 6,
        IntKind::UInt => 7,
        IntKind::Long => 8,
        IntKind::ULong => 9,
        IntKind::LLong => 10,
        IntKind::ULLong => 11,
    }
}

// Whether two sizes of arrays are both unknown, or the same.
fn same_count(left: Option<u64>, right: Option<u64>) -> bool
    ensures { result ≡ same_count left right }
{
    match left {
        None => right.is_none(),
        Some(m) => match right {
            None => false,
            Some(n) => m == n,
        },
    }
}

// Whether both hold, or neither does.
pub(crate) fn same_truth(left: bool, right: bool) -> bool
    ensures { result ≡ same_truth left right }
{
    match left {
        true => right,
        false => !right,
    }
}

// Puts the pairs of parameters behind those that wait; false where there aren't equally many.
fn add_rows<'a>(
    waiting: &mut Vec<(&'a CType, &'a CType)>,
    left: &'a [CType],
    right: &'a [CType],
) -> Result<bool, NoMemory>
    ensures { IfOk result (λ r. (r && are_same (pairs_of waiting.new.items)) ≡ (same_row (row_of (map type_of left.now)) (row_of (map type_of right.now)) && are_same (pairs_of waiting.old.items))) }
{
    let mut others = right;
    for first in left {
        let Some((second, behind)) = others.split_first() else {
            return Ok(false);
        };
        waiting.push((first, second))?;
        others = behind;
    }
    match others {
        [] => Ok(true),
        [_, _rest @ ..] => Ok(false),
    }
}

// Puts the pairs of results and parameters behind those that wait; false where the functions differ by themselves.
fn add_signatures<'a>(
    waiting: &mut Vec<(&'a CType, &'a CType)>,
    left: &'a Signature,
    right: &'a Signature,
) -> Result<bool, NoMemory>
    ensures { IfOk result (λ r. (r && are_same (pairs_of waiting.new.items)) ≡ (same_signature (signature_of left.now) (signature_of right.now) && are_same (pairs_of waiting.old.items))) }
{
    if !same_truth(left.more, right.more) {
        return Ok(false);
    }
    waiting.push((&left.result, &right.result))?;
    add_rows(waiting, left.params.as_slice(), right.params.as_slice())
}

// Puts a pair behind those that wait.
fn add_pair<'a>(
    waiting: &mut Vec<(&'a CType, &'a CType)>,
    left: &'a CType,
    right: &'a CType,
) -> Result<bool, NoMemory>
    ensures { IfOk result (λ r. (r && are_same (pairs_of waiting.new.items)) ≡ (same (type_of left.now) (type_of right.now) && are_same (pairs_of waiting.old.items))) }
{
    waiting.push((left, right))?;
    Ok(true)
}

// Puts the pairs of parts of two types behind those that wait; false where the types differ by themselves.
fn add_parts<'a>(
    waiting: &mut Vec<(&'a CType, &'a CType)>,
    left: &'a CType,
    right: &'a CType,
) -> Result<bool, NoMemory>
    ensures { IfOk result (λ r. (r && are_same (pairs_of waiting.new.items)) ≡ (same (type_of left.now) (type_of right.now) && are_same (pairs_of waiting.old.items))) }
{
    match (left, right) {
        (CType::Void, CType::Void) => Ok(true),
        (CType::Int(j), CType::Int(k)) => Ok(kind_number(*j) == kind_number(*k)),
        (CType::Struct(i), CType::Struct(j)) => Ok(*i == *j),
        (CType::Pointer(t), CType::Pointer(u)) => add_pair(waiting, t.get(), u.get()),
        (CType::Array(t, c), CType::Array(u, d)) => {
            if !same_count(*c, *d) {
                return Ok(false);
            }
            add_pair(waiting, t.get(), u.get())
        }
        (CType::Function(f), CType::Function(g)) => add_signatures(waiting, f.get(), g.get()),
        _ => Ok(false),
    }
}

/// So many pairs are compared at most. Types are compared as trees, and a few lines of typedef names make trees of more
/// parts than any memory holds.
const MOST_PAIRS: u32 = 1 << 29;

// Whether each pair that waits is of the same type. Where more than the most pairs are to be compared, the answer is
// want of memory.
fn are_same<'a>(waiting: &mut Vec<(&'a CType, &'a CType)>) -> Result<bool, NoMemory>
    ensures { IfOk result (λ r. r ≡ are_same (pairs_of waiting.old.items)) }
{
    for _ in 0..MOST_PAIRS {
        let Some((first, second)) = waiting.pop() else {
            return Ok(true);
        };
        if !add_parts(waiting, first, second)? {
            return Ok(false);
        }
    }
    Err(NoMemory)
}

/// Whether two types are the same, by a list of pairs that are left to compare, so that no nesting of types takes stack
/// (C11 6.2.7). Whether a function is marked as not returning is no part of its type. `NoMemory` comes also where more
/// than 2^29 pairs of parts are to be compared.
pub(crate) fn is_same<'a>(
    alloc: Global,
    left: &'a CType,
    right: &'a CType,
) -> Result<bool, NoMemory>
    ensures { IfOk result (λ r. r ≡ same (type_of left.now) (type_of right.now)) }
{
    let mut waiting = Vec::new(alloc);
    waiting.push((left, right))?;
    are_same(&mut waiting)
}

/// Whether types in two rows are the same, one after the other, and equally many.
pub(crate) fn is_same_row<'a>(
    alloc: Global,
    left: &'a [CType],
    right: &'a [CType],
) -> Result<bool, NoMemory>
    ensures { IfOk result (λ r. r ≡ same_row (row_of (map type_of left.now)) (row_of (map type_of right.now))) }
{
    let mut waiting = Vec::new(alloc);
    if !add_rows(&mut waiting, left, right)? {
        return Ok(false);
    }
    are_same(&mut waiting)
}
