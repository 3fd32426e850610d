// Words that are numbers.
ghost use Rattle.std.specs.Prelude.{◌≡◌, ◌≤◌, ◌<◌, ◌^◌, ◌+◌, ◌-◌, ◌*◌, min, true, MatchOption};
ghost use Rattle.std.specs.List.{list_all};
ghost use Rattle.stk_base.specs.Text.{decimal};
ghost use Rattle.stk_proofs.specs.Numbers.{is_digit, has_leading_zero, number_in};

/// Numbers are below this one, which stands for all others.
const LIMIT: u64 = 2_147_483_648;

/// Whether a byte is a decimal digit.
fn is_digit(byte: u8) -> bool
    ensures { result ≡ is_digit byte }
{
    byte >= b'0' && byte <= b'9'
}

/// Whether all bytes are decimal digits.
fn are_digits(text: &[u8]) -> bool
    ensures { result ≡ list_all is_digit text.now }
{
    for byte in text {
        if !is_digit(*byte) {
            return false;
        }
    }
    true
}

/// Whether a word of two or more bytes begins with 0.
fn has_leading_zero(word: &[u8]) -> bool
    ensures { result ≡ has_leading_zero word.now }
{
    match word.split_first() {
        Some((first, behind)) => *first == b'0' && !behind.is_empty(),
        None => false,
    }
}

/// A number with one digit more; the limit stands for any number from it on.
fn with_digit(number: u64, digit: u8) -> u64
    requires small { number ≤ 2147483648 }
    requires digit { digit ≤ 57 }
    ensures { result ≡ min (number * 10 + (digit - 48)) 2147483648 }
{
    let whole = number * 10 + u64::from(digit.saturating_sub(b'0'));
    if whole < LIMIT { whole } else { LIMIT }
}

/// The number that decimal digits make; the limit stands for any number from it on.
fn value_of(text: &[u8]) -> u64
    requires { list_all is_digit text.now ≡ true }
    ensures { result ≡ min (decimal text.now) 2147483648 }
{
    let mut number = 0;
    for byte in text {
        number = with_digit(number, *byte);
    }
    number
}

/// The number that a word is; `None` exactly where it isn't one or more decimal digits, without a leading zero, of a
/// number below 2^31.
#[tactic(auto, using(crate::proofs::Decimals::numeral_by, crate::proofs::Decimals::no_numeral))]
pub(crate) fn number_in(word: &[u8]) -> Option<u32>
    ensures is { result ≡ number_in word.now }
    ensures below { MatchOption result (0 ≤ 0) (λ n. n < 2 ^ 31) }
{
    if word.is_empty() || has_leading_zero(word) || !are_digits(word) {
        return None;
    }
    let number = value_of(word);
    if number < LIMIT {
        Some(number as u32)
    } else {
        None
    }
}
