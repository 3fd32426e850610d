// Adapters over std's reader and writer. They tell no bytes and count their errors.

ghost use Rattle.std.specs.Prelude.{◌≡◌, ◌≤◌, ◌<◌, None, length, take, IfOk, OnOk, MatchResult};
ghost use Rattle.stk_base.specs.Causes.{HasCause};
ghost use Rattle.stk_base.specs.MemoryStreams.{counted};
ghost use Rattle.stk_base.specs.Streams.{Appended, Came, IsFlushed, IsSpent};

use std::io::{Read, Write};
use std::marker::Model;
use stk_base::{Failed, Sink, Source};

/// A source over a reader. Contracts see how many of its calls failed, up to the last value of a u64.
#[derive(Drop)]
pub struct RealSource<R> {
    reader: R,
    faults: u64,
}

impl<R> Model for RealSource<R> {
    ghost use Rattle.std.specs.Prelude.{ℕ};

    ghost Value = { ℕ };

    ghost view = { λ s. s.faults };
}

impl<R: Read> RealSource<R> {
    /// A source of what the reader gives, without a fault so far.
    pub fn new(reader: R) -> RealSource<R>
        ensures { result ≡ 0 }
    {
        RealSource { reader, faults: 0 }
    }

    /// How many calls of the reader failed, up to the last value of a u64.
    pub fn faults(&self) -> u64
        ensures { result ≡ self.now }
    {
        self.faults
    }
}

impl<R: Read> Source for RealSource<R> {
    ghost left = { λ _. None };

    ghost faults = { λ s. s };

    /// As `Source::read` says: what the reader gives. Each error of the reader counts one fault, and nothing else does.
    fn read(&mut self, piece: &mut [u8]) -> Result<usize, Failed>
        ensures bound { IfOk result (λ n. n ≤ length piece.old) }
        ensures bytes { IfOk result (λ n. Came None None (take n piece.new)) }
        ensures end { IfOk result (λ n. n ≡ 0 → 0 < length piece.old → IsSpent None) }
        ensures cause { HasCause self.old self.new result }
        ensures counts { MatchResult result (λ _. self.new ≡ self.old) (λ _. self.new ≡ counted self.old) }
    {
        match self.reader.read(piece) {
            Ok(count) => Ok(count),
            Err(_) => {
                self.faults = self.faults.saturating_add(1);
                Err(Failed)
            }
        }
    }
}

/// A sink over a writer. That the writer takes nothing of a piece that isn't empty counts as an error. Contracts see
/// how many of its calls failed, up to the last value of a u64.
#[derive(Drop)]
pub struct RealSink<W> {
    writer: W,
    faults: u64,
}

impl<W> Model for RealSink<W> {
    ghost use Rattle.std.specs.Prelude.{ℕ};

    ghost Value = { ℕ };

    ghost view = { λ s. s.faults };
}

impl<W: Write> RealSink<W> {
    /// A sink that the writer takes from, without a fault so far.
    pub fn new(writer: W) -> RealSink<W>
        ensures { result ≡ 0 }
    {
        RealSink { writer, faults: 0 }
    }

    /// How many calls of the writer failed, up to the last value of a u64.
    pub fn faults(&self) -> u64
        ensures { result ≡ self.now }
    {
        self.faults
    }
}

impl<W: Write> Sink for RealSink<W> {
    ghost taken = { λ _. None };

    ghost flushed = { λ _. 0 };

    ghost faults = { λ s. s };

    /// As `Sink::write` says: what the writer takes. Each error of the writer counts one fault, and nothing else does.
    fn write(&mut self, piece: &[u8]) -> Result<usize, Failed>
        ensures bound { IfOk result (λ n. n ≤ length piece.now) }
        ensures some { IfOk result (λ n. 0 < length piece.now → 0 < n) }
        ensures bytes { IfOk result (λ n. Appended None None (take n piece.now)) }
        ensures cause { HasCause self.old self.new result }
        ensures counts { MatchResult result (λ _. self.new ≡ self.old) (λ _. self.new ≡ counted self.old) }
    {
        match self.writer.write(piece) {
            Ok(count) if count > 0 || piece.is_empty() => Ok(count),
            _ => {
                self.faults = self.faults.saturating_add(1);
                Err(Failed)
            }
        }
    }

    /// As `Sink::flush` says. An error of the writer counts one fault, and nothing else does.
    fn flush(&mut self) -> Result<(), Failed>
        ensures flushed { OnOk result (IsFlushed None 0) }
        ensures cause { HasCause self.old self.new result }
        ensures counts { MatchResult result (λ _. self.new ≡ self.old) (λ _. self.new ≡ counted self.old) }
    {
        match self.writer.flush() {
            Ok(()) => Ok(()),
            Err(_) => {
                self.faults = self.faults.saturating_add(1);
                Err(Failed)
            }
        }
    }
}

#[cfg(test)]
mod tests {
    use super::{RealSink, RealSource};
    use std::io;
    use std::io::{ErrorKind, Read, Write};
    use std::test::Fail;
    use stk_base::{Sink, Source};

    // A reader that fails, and a writer that takes nothing.
    #[derive(Drop)]
    struct Stubborn;

    impl Read for Stubborn {
        fn read(&mut self, _buf: &mut [u8]) -> io::Result<usize> {
            Err(io::Error::from(ErrorKind::Other))
        }
    }

    impl Write for Stubborn {
        fn write(&mut self, _buf: &[u8]) -> io::Result<usize> {
            Ok(0)
        }

        fn flush(&mut self) -> io::Result<()> {
            Err(io::Error::from(ErrorKind::Other))
        }
    }

    #[test]
    fn a_source_gives_what_its_reader_gives(rt: HostRuntime) -> Result<(), Fail> {
        let mut piece = [0u8; 4];
        let mut source = RealSource::new(b"ab".as_slice());
        assert!(rt; source.read(&mut piece) == Ok(2) && source.faults == 0);
        assert!(rt; piece == *b"ab\0\0");
        assert!(rt; source.read(&mut piece) == Ok(0));
        let mut broken = RealSource::new(Stubborn);
        assert!(rt; broken.read(&mut piece).is_err() && broken.faults == 1);
        Ok(())
    }

    #[test]
    fn a_sink_takes_what_its_writer_takes(rt: HostRuntime) -> Result<(), Fail> {
        let mut sink = RealSink::new(Vec::new(rt.alloc()));
        assert!(rt; sink.write(b"ab").is_ok() && sink.flush().is_ok() && sink.faults == 0);
        assert!(rt; sink.writer.as_slice() == b"ab".as_slice());
        let mut broken = RealSink::new(Stubborn);
        assert!(rt; broken.write(b"").is_ok() && broken.write(b"a").is_err() && broken.faults == 1);
        assert!(rt; broken.flush().is_err() && broken.faults == 2);
        Ok(())
    }
}
