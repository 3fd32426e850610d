//! Numbers on the command line.

ghost use Rattle.std.specs.Prelude.{◌≡◌, ◌≤◌, ◌^◌, ℕ, min, length, true, ◌*◌, ◌+◌, ◌-◌, MatchOption};
ghost use Rattle.std.specs.List.{list_all};
ghost use Rattle.stk_base.specs.Text.{decimal};
ghost use Rattle.stk_records.specs.Words.{IsNumber, is_digit};

// Whether a byte is a decimal digit.
fn is_digit(byte: u8) -> bool
    ensures { result ≡ is_digit byte }
{
    byte >= b'0' && byte <= b'9'
}

// A number with one digit more; any number above a bound counts as the bound.
fn longer(number: u128, digit: u8, bound: u128) -> u128
    requires small { number ≤ bound }
    requires bound { bound ≤ 2 ^ 64 }
    requires digit { digit ≤ 57 }
    ensures { result ≡ min (number * 10 + (digit - 48)) bound }
{
    let whole = number * 10 + u128::from(digit.saturating_sub(b'0'));
    if whole < bound { whole } else { bound }
}

// Whether all bytes are decimal digits.
fn are_digits(text: &[u8]) -> bool
    ensures { result ≡ list_all is_digit text.now }
{
    for byte in text {
        if !is_digit(*byte) {
            return false;
        }
    }
    true
}

// The number that decimal digits make, or a bound where it is greater.
fn capped(text: &[u8], bound: u128) -> u128
    requires digits { list_all is_digit text.now ≡ true }
    requires least { 1 ≤ bound }
    requires most { bound ≤ 2 ^ 64 }
    ensures { result ≡ min (decimal text.now) bound }
{
    let mut number = 0;
    for byte in text {
        number = longer(number, *byte, bound);
    }
    number
}

/// The number that a text says: 1 to 20 decimal digits, from the least to the most. `None` for every other text.
pub(crate) fn number_in(text: &[u8], least: u64, most: u64) -> Option<u64>
    ensures { MatchOption result ((n : ℕ) → IsNumber least most text.now n → ⊥) (IsNumber least most text.now) }
{
    if text.is_empty() || text.len() > 20 || !are_digits(text) {
        return None;
    }
    let number = capped(text, u128::from(most) + 1);
    if number < u128::from(least) || number > u128::from(most) {
        return None;
    }
    Some(number as u64)
}
