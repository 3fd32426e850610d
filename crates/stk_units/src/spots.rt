//! Where a byte stands.

ghost use Rattle.std.specs.Prelude.{◌≡◌, IfOk};
ghost use Rattle.std.specs.Option.{option_map};
ghost use Rattle.stk_base.specs.Text.{text_of};
ghost use Rattle.stk_units.specs.Spots.{spot_at};

use std::alloc::Global;
use stk_base::{List, NoMemory, Span};
use stk_lex::Places;
use stk_records::Spot;

// The name of a file.
fn file_of(alloc: Global, bytes: &[u8], file: Option<Span>) -> Result<Option<List<u8>>, NoMemory>
    ensures { IfOk result (λ name. name ≡ option_map (λ at. text_of bytes.now at) file) }
{
    match file {
        None => Ok(None),
        Some(at) => {
            let name = Vec::from_slice(alloc, at.text(bytes))?;
            Ok(Some(List::from_vec(name)))
        }
    }
}

/// Where a byte stands, by the line markers; behind the input it is where that ends.
pub fn spot_at(alloc: Global, input: &Places, at: u32) -> Result<Spot, NoMemory>
    ensures { IfOk result (λ spot. spot ≡ spot_at input.now at) }
{
    let bytes = input.bytes();
    let place = input.place(bytes.len().min(at as usize));
    let file = file_of(alloc, bytes, place.file)?;
    Ok(Spot {
        file,
        line: place.line,
        column: place.column,
    })
}
