// Digits, and the numbers that they write.
ghost use Rattle.std.specs.Prelude.{◌≡◌, ◌≤◌, ◌<◌, ◌+◌, ◌*◌, ℕ, length, take, drop};
ghost use Rattle.stk_numbers.specs.Digits.{digit_value, is_digit, leading, behind, written, capped};

/// The value of a digit, decimal or hexadecimal; 16 for any other byte.
fn digit_value(byte: u8) -> u8
    ensures value { result ≡ digit_value byte }
    ensures most { result ≤ 16 }
{
    match byte {
        b'0'..=b'9' => byte - b'0',
        b'a'..=b'f' => byte - b'a' + 10,
        b'A'..=b'F' => byte - b'A' + 10,
        _ => 16,
    }
}

/// How many digits of a base a text begins with.
pub(crate) fn count_digits(base: u8, text: &[u8]) -> usize
    ensures within { result ≤ length text.now }
    ensures digits { take result text.now ≡ leading base text.now }
    ensures rest { drop result text.now ≡ behind base text.now }
{
    for (i, byte) in text.iter().enumerate() {
        if digit_value(*byte) >= base {
            return i;
        }
    }
    text.len()
}

/// A number with one digit more, where it is below 2^64.
fn with_digit(number: Option<u64>, base: u8, digit: u8) -> Option<u64>
    requires { 1 ≤ base }
    ensures { (n : ℕ) → number ≡ capped n → result ≡ capped (n * base + digit) }
{
    let Some(number) = number else {
        return None;
    };
    let Some(shifted) = number.checked_mul(u64::from(base)) else {
        return None;
    };
    shifted.checked_add(u64::from(digit))
}

/// The number that digits of a base write, where it is below 2^64.
pub(crate) fn written(base: u8, digits: &[u8]) -> Option<u64>
    requires { 1 ≤ base }
    ensures { result ≡ capped (written base digits.now) }
{
    let mut number = Some(0);
    for byte in digits {
        number = with_digit(number, base, digit_value(*byte));
    }
    number
}
