// Where bytes come from.
ghost use Rattle.std.specs.Prelude.{◌≡◌, ◌↔◌, ◌≤◌, ◌<◌, ◌+◌, ◌^◌, ◌⊎◌, ℕ, List, [], length, take, vec_len, IfOk, OnErr, IsOk, IsErrOf};
ghost use Rattle.std.specs.Prelude.{Option};
ghost use Rattle.stk_base.specs.Causes.{Rose, HasCause};
ghost use Rattle.stk_base.specs.Streams.{Came, IsSpent};
ghost use Rattle.stk_base.specs.declared.source.ReadAll.TheVariants.{ReadFault, NoMemory};

use crate::Failed;
use std::alloc::{AllocError, Global};

/// A source of bytes. A contract sees what it has left, where it tells that, and how often it has failed.
pub trait Source {
    /// The bytes that are still to come, where the source tells them.
    ghost left: { Self → Option (List ℕ) };

    /// How often the source has failed, a number that doesn't fall. A source that counts in a u64 stays at its last
    /// value.
    ghost faults: { Self → ℕ };

    /// Reads up to `piece.len()` bytes into the front of `piece`, and answers how many. 0 for a piece that isn't empty
    /// says that nothing is left; no answer but `Failed` counts a fault. `Failed` comes only where the source counted
    /// one, and leaves what was left; what the piece then holds isn't said.
    fn read(&mut self, piece: &mut [u8]) -> Result<usize, Failed>
        ensures bound { IfOk result (λ n. n ≤ length piece.old) }
        ensures bytes { IfOk result (λ n. Came (left self.old) (left self.new) (take n piece.new)) }
        ensures end { IfOk result (λ n. n ≡ 0 → 0 < length piece.old → IsSpent (left self.new)) }
        ensures kept { OnErr result (left self.new ≡ left self.old) }
        ensures cause { HasCause (faults self.old) (faults self.new) result };
}

/// Why a source wasn't read to its end.
#[derive(Clone, Copy, Debug, PartialEq, Eq)]
pub enum ReadAll {
    /// A call of the source failed.
    ReadFault,
    /// The source has more bytes than the limit.
    TooLarge,
    /// An allocation was refused.
    NoMemory,
}

impl From<AllocError> for ReadAll {
    ghost from_gives = { λ _ e. e ≡ NoMemory };

    fn from(_: AllocError) -> Self {
        ReadAll::NoMemory
    }
}

impl From<Failed> for ReadAll {
    ghost from_gives = { λ _ e. e ≡ ReadFault };

    fn from(_: Failed) -> Self {
        ReadAll::ReadFault
    }
}

/// How many bytes `read_all` asks a source for at once.
pub const READ_PIECE: usize = 16_384;

/// Reads a source to its end, if it has at most `limit` bytes. Ok is all that was left, in order, and nothing is left
/// afterwards. After any other answer what is left is a suffix of what was left, and `came` below is what lies before
/// it.
///
/// `TooLarge` comes exactly where more than `limit` bytes came before the end and before any failed call; it then stops
/// at once, so that at most one piece more had come. `ReadFault` comes only where the source counted a fault, and no
/// other answer where it did: the first failed call is the last one. Before `NoMemory` at most `limit` bytes had come.
/// `limit` is below 2 to the 32.
pub fn read_all<S: Source>(alloc: Global, source: &mut S, limit: u64) -> Result<Vec<u8>, ReadAll>
    requires { limit < 2 ^ 32 }
    ensures whole { IfOk result (λ bytes. Came (S.left source.old) (S.left source.new) bytes.items) }
    ensures end { IfOk result (λ _. IsSpent (S.left source.new)) }
    ensures told { IfOk result (λ bytes. (xs : List ℕ) → S.left source.old ≡ Some xs
        → (bytes.items ≡ xs) × (S.left source.new ≡ Some [])) }
    ensures within { IfOk result (λ bytes. vec_len bytes ≤ limit) }
    ensures too_large { (came : List ℕ) × Came (S.left source.old) (S.left source.new) came
        × (IsErrOf result ReadAll.TooLarge ↔ (limit < length came)) × (length came ≤ limit + READ_PIECE) }
    ensures fault { IsErrOf result ReadAll.ReadFault → Rose (S.faults source.old) (S.faults source.new) }
    ensures no_fault { IsErrOf result ReadAll.ReadFault ⊎ (S.faults source.new ≡ S.faults source.old) }
    ensures later { S.faults source.old ≤ S.faults source.new }

    // What the answer is over a source that tells its bytes and doesn't fail.
    ensures fits { (bytes : List ℕ) → S.left source.old ≡ Some bytes → length bytes ≤ limit
        → ¬ Rose (S.faults source.old) (S.faults source.new) → IsOk result ⊎ IsErrOf result ReadAll.NoMemory }
    ensures passes { (bytes : List ℕ) → S.left source.old ≡ Some bytes → limit < length bytes
        → ¬ Rose (S.faults source.old) (S.faults source.new)
        → IsErrOf result ReadAll.TooLarge ⊎ IsErrOf result ReadAll.NoMemory }
{
    let mut piece = [0; READ_PIECE];
    gather(alloc, source, &mut piece, limit)
}

// Reads a source to its end, a piece at a time.
fn gather<S: Source>(
    alloc: Global,
    source: &mut S,
    piece: &mut [u8],
    limit: u64,
) -> Result<Vec<u8>, ReadAll>
    requires limit { limit < 2 ^ 32 }
    requires piece { 0 < length piece.old }
    ensures whole { IfOk result (λ bytes. Came (S.left source.old) (S.left source.new) bytes.items) }
    ensures end { IfOk result (λ _. IsSpent (S.left source.new)) }
    ensures within { IfOk result (λ bytes. vec_len bytes ≤ limit) }
    ensures too_large { (came : List ℕ) × Came (S.left source.old) (S.left source.new) came
        × (IsErrOf result ReadAll.TooLarge ↔ (limit < length came)) × (length came ≤ limit + length piece.old) }
    ensures fault { IsErrOf result ReadAll.ReadFault → Rose (S.faults source.old) (S.faults source.new) }
    ensures no_fault { IsErrOf result ReadAll.ReadFault ⊎ (S.faults source.new ≡ S.faults source.old) }
    ensures later { S.faults source.old ≤ S.faults source.new }
{
    let mut bytes = Vec::new(alloc);
    loop {
        let count = source.read(piece)?;
        if count == 0 {
            return Ok(bytes);
        }
        if count as u64 > limit - bytes.len() as u64 {
            return Err(ReadAll::TooLarge);
        }
        bytes.extend_from_slice(&piece[..count])?;
    }
}
