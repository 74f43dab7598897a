// Streams of the system as a source and a sink.
ghost use Rattle.std.specs.Prelude.{◌≡◌, ◌≤◌, ◌<◌, length, IfOk, is_ok, if◌then◌else◌};
ghost use Rattle.std.specs.Io.KnownBytes.{ReadConsumes, WriteAppends};
ghost use Rattle.whips_io.specs.Counts.{next_count, FailsByFault};

use super::outside::{Failed, Sink, Source};
use std::io::{Read, Write};
use std::marker::Model;

/// The count after one more, which stops at its last value.
pub(crate) fn count_one(count: u64) -> u64
    ensures { result ≡ next_count count }
{
    count.saturating_add(1)
}

/// A stream, such as standard input, as a source.
///
/// Each error of the stream is a fault; none is tried again. The bytes still to come are known where
/// the stream's type says them, which those of the system don't.
#[derive(Drop)]
pub struct StdSource<R: Read + Drop> {
    reader: R,
    calls: u64,
    faults: u64,
}

impl<R: Read + Drop> Model for StdSource<R> {
    ghost use Rattle.whips_io.specs.Memory.{StreamState};

    ghost Value = { StreamState };

    ghost view = { λ s. record {
      known = R.remaining s.reader;
      calls = s.calls;
      faults = s.faults;
    } };
}

impl<R: Read + Drop> StdSource<R> {
    /// A source over the stream, with no call and no fault so far.
    pub fn over(reader: R) -> StdSource<R>
        ensures { result ≡ record { known = R.remaining reader; calls = 0; faults = 0 } }
    {
        StdSource {
            reader,
            calls: 0,
            faults: 0,
        }
    }
}

impl<R: Read + Drop> Source for StdSource<R> {
    ghost left = { λ s. s.known };

    ghost faults = { λ s. s.faults };

    ghost calls = { λ s. s.calls };

    fn read(&mut self, buf: &mut [u8]) -> Result<usize, Failed>
        ensures bound { IfOk result (λ n. n ≤ length buf.new) }
        ensures bytes { ReadConsumes self.old.known self.new.known result buf.new }
        ensures cause { FailsByFault self.old.faults self.new.faults result }
        ensures counted { self.new.calls ≡ next_count self.old.calls }
        ensures faults { self.new.faults
            ≡ (if is_ok result then self.old.faults else next_count self.old.faults) }
    {
        self.calls = count_one(self.calls);
        match self.reader.read(buf) {
            Ok(n) => Ok(n),
            Err(_) => {
                self.faults = count_one(self.faults);
                Err(Failed)
            }
        }
    }
}

/// A stream, such as standard output, as a sink.
///
/// Each error of the stream is a fault, and so is a piece that isn't empty and of which it takes no
/// byte. The bytes written are known where the stream's type says them, which those of the system
/// don't.
#[derive(Drop)]
pub struct StdSink<W: Write + Drop> {
    writer: W,
    calls: u64,
    faults: u64,
}

impl<W: Write + Drop> Model for StdSink<W> {
    ghost use Rattle.whips_io.specs.Memory.{StreamState};

    ghost Value = { StreamState };

    ghost view = { λ s. record {
      known = W.contents s.writer;
      calls = s.calls;
      faults = s.faults;
    } };
}

impl<W: Write + Drop> StdSink<W> {
    /// A sink over the stream, with no call and no fault so far.
    pub fn over(writer: W) -> StdSink<W>
        ensures { result ≡ record { known = W.contents writer; calls = 0; faults = 0 } }
    {
        StdSink {
            writer,
            calls: 0,
            faults: 0,
        }
    }
}

impl<W: Write + Drop> Sink for StdSink<W> {
    ghost written = { λ s. s.known };

    ghost faults = { λ s. s.faults };

    ghost calls = { λ s. s.calls };

    fn write(&mut self, piece: &[u8]) -> Result<usize, Failed>
        ensures bound { IfOk result (λ n. n ≤ length piece.now) }
        ensures some { IfOk result (λ n. 0 < length piece.now → 0 < n) }
        ensures bytes { WriteAppends self.old.known self.new.known result piece.now }
        ensures cause { FailsByFault self.old.faults self.new.faults result }
        ensures counted { self.new.calls ≡ next_count self.old.calls }
        ensures faults { self.new.faults
            ≡ (if is_ok result then self.old.faults else next_count self.old.faults) }
    {
        self.calls = count_one(self.calls);
        match self.writer.write(piece) {
            Ok(n) if n > 0 || piece.is_empty() => Ok(n),
            Ok(_) | Err(_) => {
                self.faults = count_one(self.faults);
                Err(Failed)
            }
        }
    }
}
