// The numbers of a script that may have a sign.
ghost use Rattle.std.specs.Prelude.{◌≡◌, MatchOption, ℤ};
ghost use Rattle.std.specs.Fmt.{signed_decimal};
ghost use Rattle.stk_replay_script.specs.Scripts.{IsOfSomeKind};

use stk_line_reading::number_in;

// The magnitude of the least number, -2^63.
const MOST_BELOW: u64 = 9_223_372_036_854_775_808;

/// The number that a text is, from -2^63 to 2^64 - 1: decimal digits without a leading zero, behind `-` where it is
/// negative. `None` exactly where a text is no such number.
pub(crate) fn signed_number_in(text: &[u8]) -> Option<i128>
    ensures { MatchOption result ((z : ℤ) → IsOfSomeKind z → text.now ≡ signed_decimal z → ⊥) (λ z. IsOfSomeKind z × (text.now ≡ signed_decimal z)) }
{
    match text.split_first() {
        Some((first, digits)) if *first == b'-' => {
            let number = number_in(digits)?;
            if 0 < number && number <= MOST_BELOW {
                Some(-i128::from(number))
            } else {
                None
            }
        }
        _ => {
            let number = number_in(text)?;
            Some(i128::from(number))
        }
    }
}
