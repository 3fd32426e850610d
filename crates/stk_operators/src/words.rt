//! The numbers of a run, and the sizes of what pointers point to.

ghost use Rattle.std.specs.Prelude.{◌≡◌, ℤ, pos, not, ◌<◌, ◌^◌, ◌%◌, ◌+◌, if◌then◌else◌};
ghost use Rattle.std.specs.Ordering.{int_eq};
ghost use Rattle.stk_numbers.specs.Kinds.{wrap};
ghost use Rattle.stk_meaning.specs.Operations.{truth, bit, to_address};
ghost use Rattle.stk_operators.specs.Words.{IsWord};

use std::marker::Model;
use stk_numbers::{IntKind, wrap};

/// A number of a run: from -2^63, the least number of `long`, to 2^64 - 1, the greatest one of `unsigned long`.
#[derive(Clone, Copy, Debug)]
pub struct Word {
    number: i128,
}

impl Model for Word {
    ghost use Rattle.std.specs.Prelude.{ℤ};
    ghost use Rattle.stk_operators.specs.Words.{IsWord};

    ghost Value = { ℤ };

    ghost view = { λ w. w.number };

    ghost invariant = { λ w. IsWord w.number };

    ghost inverse = { λ z. record { number = z } };
}

/// The size in bytes of what a pointer points to, below 2^31.
#[derive(Clone, Copy, Debug)]
pub struct Stride {
    bytes: u64,
}

impl Model for Stride {
    ghost use Rattle.std.specs.Prelude.{ℕ, ◌<◌, ◌^◌};

    ghost Value = { ℕ };

    ghost view = { λ s. s.bytes };

    ghost invariant = { λ s. s.bytes < 2 ^ 31 };

    ghost inverse = { λ n. record { bytes = n } };
}

impl Stride {
    /// A size of so many bytes.
    pub fn new(bytes: u64) -> Stride
        requires { bytes < 2 ^ 31 }
        ensures { result ≡ bytes }
    {
        Stride { bytes }
    }

    /// The bytes of a size.
    pub fn bytes(self) -> u64
        ensures is { result ≡ self }
        ensures below { result < 2 ^ 31 }
    {
        self.bytes
    }
}

impl Word {
    /// A number in the range of a run's numbers.
    pub fn new(number: i128) -> Word
        requires { IsWord number }
        ensures { result ≡ number }
    {
        Word { number }
    }

    /// The number of an address.
    pub fn address(address: u64) -> Word
        ensures { result ≡ pos address }
    {
        Word {
            number: i128::from(address),
        }
    }

    /// A number converted to a kind (C11 6.3.1.2, 6.3.1.3).
    pub fn wrapped(kind: IntKind, number: i128) -> Word
        ensures { result ≡ wrap kind number }
    {
        Word {
            number: wrap(kind, number),
        }
    }

    /// The number converted to a kind.
    pub fn to_kind(self, kind: IntKind) -> Word
        ensures { result ≡ wrap kind self }
    {
        Word::wrapped(kind, self.number)
    }

    /// 1 for true and 0 for false (C11 6.5.8p6).
    pub fn bit(truth: bool) -> Word
        ensures { result ≡ bit truth }
    {
        Word {
            number: if truth { 1 } else { 0 },
        }
    }

    /// The number.
    pub fn number(self) -> i128
        ensures is { result ≡ self }
        ensures word { IsWord result }
    {
        self.number
    }

    /// Whether the number counts as true: it isn't 0 (C11 6.5.13, 6.8.4.1).
    pub fn is_true(self) -> bool
        ensures { result ≡ truth self }
    {
        self.number != 0
    }

    /// The address that the number is: modulo 2^64.
    pub fn to_address(self) -> u64
        ensures { result ≡ to_address self }
    {
        self.number.rem_euclid(18_446_744_073_709_551_616) as u64
    }
}
