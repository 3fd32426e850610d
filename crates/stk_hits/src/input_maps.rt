//! The input map of a number.

ghost use Rattle.std.specs.Prelude.{◌≡◌, ◌≤◌, ◌<◌, ◌^◌, ◌/◌, ◌%◌, pos, IfOk};
ghost use Rattle.stk_numbers.specs.Kinds.{wrap};
ghost use Rattle.stk_hits.specs.InputMaps.{bits_in, map_at};

use std::alloc::Global;
use stk_base::{List, NoMemory};
use stk_numbers::{Inputs, IntKind, width, wrap};

/// How many bits a map for keys of these kinds has: the sum of their widths, which is below 2^32.
pub fn total_bits(kinds: &[IntKind]) -> u32
    requires { bits_in kinds.now < 2 ^ 32 }
    ensures { result ≡ bits_in kinds.now }
{
    let mut bits = 0;
    for kind in kinds {
        bits += u32::from(width(*kind));
    }
    bits
}

// The number of the first key, behind which the keys have so many bits.
fn first_number(kind: IntKind, number: u32, bits: u32) -> i128
    requires { bits ≤ 16 }
    ensures { result ≡ wrap kind (pos (number / 2 ^ bits)) }
{
    wrap(kind, i128::from(number >> bits))
}

// What is left of the number of a map behind its first key, where the other keys have so many bits.
fn rest_number(number: u32, bits: u32) -> u32
    requires { bits ≤ 16 }
    ensures { result ≡ number % 2 ^ bits }
{
    number % (1 << bits)
}

/// The input map of a number, for keys of these kinds of at most 16 bits together: the bits of the first key's number
/// are the highest ones.
pub fn map_of(alloc: Global, kinds: &[IntKind], number: u32) -> Result<Inputs, NoMemory>
    requires { bits_in kinds.now ≤ 16 }
    ensures { IfOk result (λ inputs. inputs.numbers ≡ map_at kinds.now number) }
{
    let mut bits = total_bits(kinds);
    let mut left = number;
    let mut numbers = Vec::new(alloc);
    for kind in kinds {
        bits -= u32::from(width(*kind));
        numbers.push(first_number(*kind, left, bits))?;
        left = rest_number(left, bits);
    }
    Ok(Inputs {
        numbers: List::from_vec(numbers),
    })
}
