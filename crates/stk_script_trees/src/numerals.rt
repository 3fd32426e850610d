//! Numerals: decimal digits without a leading zero.

ghost use Rattle.std.specs.Prelude.{◌≡◌, ◌+◌, ◌-◌, ◌*◌, true};
ghost use Rattle.std.specs.List.{list_all};
ghost use Rattle.stk_scripts.specs.Texts.{is_digit};
ghost use Rattle.stk_scripts.specs.Numerals.{has_lead, numeral};
ghost use Rattle.stk_script_trees.specs.Numbers.{small};
ghost use Rattle.stk_base.specs.Text.{decimal};

// Whether all bytes are digits.
fn are_digits(text: &[u8]) -> bool
    ensures { result ≡ list_all is_digit text.now }
{
    text.iter().all(|b| b.is_ascii_digit())
}

// Whether the first of some digits isn't 0, or stands alone.
fn has_lead(text: &[u8]) -> bool
    ensures { result ≡ has_lead text.now }
{
    match text {
        [] => false,
        [_] => true,
        [first, ..] => *first != b'0',
    }
}

// A number with one more digit, where it is below 2 to 128.
fn with_digit(number: u128, b: u8) -> Option<u128>
    requires { is_digit b ≡ true }
    ensures { result ≡ small (number * 10 + (b - 48)) }
{
    number.checked_mul(10)?.checked_add(u128::from(b - b'0'))
}

#[tactic(auto, using(crate::proofs::Digits::stays_great, crate::proofs::Digits::is_small))]
// The number that digits make, where it is below 2 to 128.
fn number(text: &[u8]) -> Option<u128>
    requires { list_all is_digit text.now ≡ true }
    ensures { result ≡ small (decimal text.now) }
{
    let mut number: u128 = 0;
    let mut rest = text;
    while let Some((b, behind)) = rest.split_first() {
        number = with_digit(number, *b)?;
        rest = behind;
    }
    Some(number)
}

/// The number of a numeral, where the text is one of a number below 2 to 128.
pub(crate) fn numeral(text: &[u8]) -> Option<u128>
    ensures { result ≡ numeral text.now }
{
    if are_digits(text) && has_lead(text) && text.len() <= 39 {
        number(text)
    } else {
        None
    }
}
