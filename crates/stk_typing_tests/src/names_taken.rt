//! The declarators that are noted of a function in a text.

use std::alloc::Global;
use stk_address_taken::{statics_in, taken_in};
use stk_base::NoMemory;
use stk_ctype::Names;
use stk_lex::lex;
use stk_stmt::unit;
use stk_tree::{Function, Unit};

/// Which declarators of a function are asked for.
#[derive(Clone, Copy)]
pub(crate) enum Asked {
    Taken,
    Statics,
}

// The declarators of a function that are asked for.
fn function_noted(
    alloc: Global,
    bytes: &[u8],
    f: &Function,
    asked: Asked,
) -> Result<Vec<u32>, NoMemory> {
    match asked {
        Asked::Taken => taken_in(alloc, bytes, f),
        Asked::Statics => statics_in(alloc, f),
    }
}

// The same of a unit, where it is a function.
fn unit_noted(
    alloc: Global,
    bytes: &[u8],
    unit: &Unit,
    asked: Asked,
) -> Result<Option<Vec<u32>>, NoMemory> {
    match unit {
        Unit::Defines(_, function) => {
            let found = function_noted(alloc, bytes, function, asked)?;
            Ok(Some(found))
        }
        Unit::Empty(_) | Unit::Declares(_, _) => Ok(None),
    }
}

/// The numbers of the declarators that are asked for in the function that a text is, in order; none where the text is
/// no function.
pub(crate) fn noted(
    alloc: Global,
    bytes: &[u8],
    asked: Asked,
) -> Result<Option<Vec<u32>>, NoMemory> {
    if bytes.len() > 16_777_216 {
        return Ok(None);
    }
    let tokens = lex(alloc, bytes)?;
    let names = Names::new(alloc);
    match unit(alloc, bytes, tokens.as_slice(), &names) {
        Ok(unit) => {
            let found = unit_noted(alloc, bytes, unit.get(), asked)?;
            Ok(found)
        }
        Err(_) => Ok(None),
    }
}
