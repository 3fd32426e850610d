// Where bytes go.
ghost use Rattle.std.specs.Prelude.{◌≡◌, ◌≤◌, ◌<◌, ℕ, List, length, take, IfOk, OnOk, OnErr};
ghost use Rattle.std.specs.Prelude.{Option};
ghost use Rattle.stk_base.specs.Causes.{HasCause};
ghost use Rattle.stk_base.specs.Streams.{Appended, AppendedPrefix, IsFlushed};

use crate::Failed;

/// A sink of bytes. A contract sees what it took, where it tells that, how many of these bytes it has flushed, and how
/// often it has failed.
pub trait Sink {
    /// The bytes that the sink took, where it tells them.
    ghost taken: { Self → Option (List ℕ) };

    /// How many of these bytes are flushed.
    ghost flushed: { Self → ℕ };

    /// How often the sink has failed, a number that doesn't fall. A sink that counts in a u64 stays at its last value.
    ghost faults: { Self → ℕ };

    /// Takes bytes from the front of `piece`, and answers how many: at least 1 of a piece that isn't empty. `Failed`
    /// comes exactly where the sink counted a fault, and then it took nothing. What is flushed stays as it was.
    fn write(&mut self, piece: &[u8]) -> Result<usize, Failed>
        ensures bound { IfOk result (λ n. n ≤ length piece.now) }
        ensures some { IfOk result (λ n. 0 < length piece.now → 0 < n) }
        ensures bytes { IfOk result (λ n. Appended (taken self.old) (taken self.new) (take n piece.now)) }
        ensures kept { OnErr result (taken self.new ≡ taken self.old) }
        ensures flushed { flushed self.new ≡ flushed self.old }
        ensures cause { HasCause (faults self.old) (faults self.new) result };

    /// Flushes all that the sink took. `Failed` comes exactly where the sink counted a fault, and leaves what is
    /// flushed.
    fn flush(&mut self) -> Result<(), Failed>
        ensures taken { taken self.new ≡ taken self.old }
        ensures flushed { OnOk result (IsFlushed (taken self.new) (flushed self.new)) }
        ensures kept { OnErr result (flushed self.new ≡ flushed self.old) }
        ensures cause { HasCause (faults self.old) (faults self.new) result };
}

/// Writes all of `bytes` to a sink, in as many calls as it takes, up to the first that fails. `Failed` comes exactly
/// where the sink counted a fault: then it took a prefix of `bytes`. It flushes nothing and takes no memory.
pub fn write_all<K: Sink>(sink: &mut K, bytes: &[u8]) -> Result<(), Failed>
    ensures all { OnOk result (Appended (K.taken sink.old) (K.taken sink.new) bytes.now) }
    ensures prefix { OnErr result (AppendedPrefix (K.taken sink.old) (K.taken sink.new) bytes.now) }
    ensures flushed { K.flushed sink.new ≡ K.flushed sink.old }
    ensures cause { HasCause (K.faults sink.old) (K.faults sink.new) result }
{
    let mut rest = bytes;
    while !rest.is_empty() {
        let count = sink.write(rest)?;
        rest = &rest[count..];
    }
    Ok(())
}
