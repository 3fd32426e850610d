//! How many bits an input map has.

ghost use Rattle.std.specs.Prelude.{◌≡◌, map};
ghost use Rattle.stk_meaning.specs.Keys.{input_bits};
ghost use Rattle.stk_function_env.specs.Infos.{info_in};

use stk_function_env::KeyInfo;
use stk_numbers::width;

/// How many bits an input map for these keys has: the sum of the widths of their kinds.
#[tactic(auto, using(crate::proofs::Summed::summed))]
pub fn input_bits(keys: &[KeyInfo]) -> u128
    ensures { result ≡ input_bits (map info_in keys.now) }
{
    let mut bits: u128 = 0;
    for info in keys {
        bits += u128::from(width(info.kind));
    }
    bits
}
