// What a word is in a list of literals or of hints.
ghost use Rattle.std.specs.Prelude.{◌≡◌, ◌<◌, ◌^◌};
ghost use Rattle.stk_proofs.specs.Entries.{positive_entry, negative_entry, literal_entry, hint_entry};

use crate::numbers::number_in;
use stk_clauses::Lit;

/// What a word is in a list that a 0 ends.
#[derive(Clone, Copy, Debug, PartialEq, Eq)]
pub(crate) enum Entry<T> {
    Bad,
    End,
    Item(T),
}

/// What a number without `-` is among literals of so many variables.
fn positive_entry(most: u32, number: Option<u32>) -> Entry<Lit>
    requires { most < 2 ^ 31 }
    ensures { result ≡ positive_entry most number }
{
    match number {
        None => Entry::Bad,
        Some(n) => {
            if n == 0 {
                Entry::End
            } else if n <= most {
                Entry::Item(Lit(2 * (n - 1)))
            } else {
                Entry::Bad
            }
        }
    }
}

/// What a number behind `-` is there.
fn negative_entry(most: u32, number: Option<u32>) -> Entry<Lit>
    requires { most < 2 ^ 31 }
    ensures { result ≡ negative_entry most number }
{
    match number {
        None => Entry::Bad,
        Some(n) => {
            if 1 <= n && n <= most {
                Entry::Item(Lit(2 * (n - 1) + 1))
            } else {
                Entry::Bad
            }
        }
    }
}

/// What a word is among literals of so many variables.
pub(crate) fn literal_entry(most: u32, word: &[u8]) -> Entry<Lit>
    requires { most < 2 ^ 31 }
    ensures { result ≡ literal_entry most word.now }
{
    match word.split_first() {
        None => Entry::Bad,
        Some((first, behind)) => {
            if *first == b'-' {
                negative_entry(most, number_in(behind))
            } else {
                positive_entry(most, number_in(word))
            }
        }
    }
}

/// What a word is among hints.
pub(crate) fn hint_entry(word: &[u8]) -> Entry<u32>
    ensures { result ≡ hint_entry word.now }
{
    match number_in(word) {
        None => Entry::Bad,
        Some(0) => Entry::End,
        Some(n) => Entry::Item(n - 1),
    }
}
