// The numbers in texts.
ghost use Rattle.std.specs.Prelude.{◌≡◌, ◌<◌, ◌^◌, ℕ, List, decimal, MatchOption};
ghost use Rattle.stk_line_reading.specs.Numbers.{IsNext};

use crate::cutting::cut_at;
use itoa::Buffer;

/// The number that a text is: decimal digits without a sign or a leading zero. `None` for every other text, also for a
/// number of 2^64 or more.
pub fn number_in(text: &[u8]) -> Option<u64>
    ensures { MatchOption result ((n : ℕ) → n < 2 ^ 64 → text.now ≡ decimal n → ⊥) (λ n. text.now ≡ decimal n) }
{
    let Ok(digits) = str::from_utf8(text) else {
        return None;
    };
    let Ok(number) = digits.parse::<u64>() else {
        return None;
    };
    let mut buffer = Buffer::new();
    if buffer.format(number).as_bytes() == text {
        Some(number)
    } else {
        None
    }
}

/// The number behind the space that a text begins with, and what comes behind it; `None` exactly where a text doesn't
/// begin so.
pub fn next_number(text: &[u8]) -> Option<(u64, &[u8])>
    ensures { MatchOption result ((n : ℕ) (behind : List ℕ) → IsNext text.now n behind → ⊥) (λ p. IsNext text.now p.0 p.1.now) }
{
    let (first, behind) = text.split_first()?;
    if *first != b' ' {
        return None;
    }
    let (word, rest) = cut_at(behind, b' ');
    let Some(number) = number_in(word) else {
        return None;
    };
    Some((number, rest))
}
