//! Numbers of the integer kinds in a memory.

ghost use Rattle.std.specs.Prelude.{◌≡◌, false, OnOk};
ghost use Rattle.stk_ctype.specs.Kinds.{bytes_of};
ghost use Rattle.stk_numbers.specs.Kinds.{wrap, width_of, residue, is_signed, is_bool};
ghost use Rattle.stk_meaning.specs.Memory.{number_at, stored};
ghost use Rattle.stk_memory.specs.Image.{memory_of};

use crate::bytes::Bytes;
use stk_base::NoMemory;
use stk_ctype::IntKind;
use stk_numbers::wrap;

/// How many bytes a number of a kind has (LP64).
fn bytes_of(kind: IntKind) -> u8
    ensures { result ≡ bytes_of kind }
{
    match kind {
        IntKind::Bool | IntKind::Char | IntKind::SChar | IntKind::UChar => 1,
        IntKind::Short | IntKind::UShort => 2,
        IntKind::Int | IntKind::UInt => 4,
        IntKind::Long | IntKind::ULong | IntKind::LLong | IntKind::ULLong => 8,
    }
}

/// The kind without negative numbers that has as many bits.
fn unsigned(kind: IntKind) -> IntKind
    ensures width { width_of result ≡ width_of kind }
    ensures sign { is_signed result ≡ false }
    ensures truth { is_bool result ≡ is_bool kind }
{
    match kind {
        IntKind::Bool => IntKind::Bool,
        IntKind::Char | IntKind::SChar | IntKind::UChar => IntKind::UChar,
        IntKind::Short | IntKind::UShort => IntKind::UShort,
        IntKind::Int | IntKind::UInt => IntKind::UInt,
        IntKind::Long | IntKind::ULong => IntKind::ULong,
        IntKind::LLong | IntKind::ULLong => IntKind::ULLong,
    }
}

/// The bits of a number converted to a kind.
fn bits_of(kind: IntKind, number: i128) -> u64
    ensures { result ≡ residue (width_of kind) (wrap kind number) }
{
    wrap(unsigned(kind), number) as u64
}

impl Bytes {
    /// The number of a kind at an address: two's complement, the lowest byte first; a `_Bool` is 1 unless its byte is 0
    /// (C11 6.2.6.1, 6.2.6.2).
    pub fn number_at(&self, kind: IntKind, at: u64) -> i128
        ensures { result ≡ number_at kind at (memory_of self.now) }
    {
        wrap(kind, i128::from(self.read(bytes_of(kind), at)))
    }

    /// Stores a number, converted to a kind, at an address.
    pub fn store(&mut self, kind: IntKind, at: u64, number: i128) -> Result<(), NoMemory>
        ensures { OnOk result (memory_of self.new ≡ stored kind at number (memory_of self.old)) }
    {
        self.write(bytes_of(kind), at, bits_of(kind, number))
    }
}
