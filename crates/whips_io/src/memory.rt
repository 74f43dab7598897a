// A source and a sink in memory, with faults on chosen calls.
ghost use Rattle.std.specs.Prelude.{◌≡◌, ◌+◌, ◌<◌, ◌≤◌, ◌↔◌, ◌⊎◌, ◌++◌, [], length, min, take, drop, Contains, IsErr, IsTrue, IfOk, OnErr, Some};
ghost use Rattle.std.specs.Io.KnownBytes.{ReadConsumes, WriteAppends};
ghost use Rattle.whips_io.specs.Counts.{next_count, FailsByFault};

use super::outside::{Failed, NoMemory, Sink, Source};
use super::stream::count_one;
use std::alloc::Global;
use std::marker::Model;

/// How many bytes a [`MemSink`] has room for.
pub const SINK_ROOM: usize = 1_048_576;

/// Whether the call after the first `calls` ones has one of these numbers, which count from 1.
fn is_next_among(numbers: &[u64], calls: u64) -> bool
    ensures { IsTrue result ↔ Contains numbers.now (calls + 1) }
{
    match calls.checked_add(1) {
        Some(number) => numbers.contains(&number),
        None => false,
    }
}

/// Whether the room of a sink with `len` bytes takes `n` more.
fn has_room(len: usize, n: usize) -> bool
    ensures { IsTrue result ↔ (len + n ≤ SINK_ROOM) }
{
    len <= SINK_ROOM && n <= SINK_ROOM - len
}

/// Bytes in memory as a source.
#[derive(Drop)]
pub struct MemSource {
    bytes: Vec<u8>,
    at: usize,
    max_piece: usize,
    fails: Vec<u64>,
    calls: u64,
    faults: u64,
}

impl Model for MemSource {
    ghost use Rattle.std.specs.Prelude.{◌≤◌, ◌<◌, length, drop};
    ghost use Rattle.whips_io.specs.Memory.{SourceState};

    ghost Value = { SourceState };

    ghost view = { λ s. record {
      left = drop s.at s.bytes.items;
      max_piece = s.max_piece;
      fails = s.fails.items;
      calls = s.calls;
      faults = s.faults;
    } };

    ghost invariant = { λ s. (s.at ≤ length s.bytes.items) × (0 < s.max_piece) };
}

impl MemSource {
    /// A source that gives these bytes, at most `max_piece` of them a call. The calls whose
    /// numbers, from 1, are in `fails` fail.
    pub fn new(bytes: Vec<u8>, max_piece: usize, fails: Vec<u64>) -> MemSource
        requires { 0 < max_piece }
        ensures { result ≡ record {
          left = bytes.items;
          max_piece = max_piece;
          fails = fails.items;
          calls = 0;
          faults = 0;
        } }
    {
        MemSource {
            bytes,
            at: 0,
            max_piece,
            fails,
            calls: 0,
            faults: 0,
        }
    }
}

impl Source for MemSource {
    ghost left = { λ s. Some s.left };

    ghost faults = { λ s. s.faults };

    ghost calls = { λ s. s.calls };

    fn read(&mut self, buf: &mut [u8]) -> Result<usize, Failed>
        ensures bound { IfOk result (λ n. n ≤ length buf.new) }
        ensures bytes { ReadConsumes (Some self.old.left) (Some self.new.left) result buf.new }
        ensures cause { FailsByFault self.old.faults self.new.faults result }
        ensures counted { self.new.calls ≡ next_count self.old.calls }

        // What exactly the call does.
        ensures failed { IsErr result ↔ Contains self.old.fails (self.old.calls + 1) }
        ensures piece { IfOk result (λ n.
            n ≡ min (length buf.old) (min self.old.max_piece (length self.old.left))) }
        ensures buf { IfOk result (λ n. buf.new ≡ take n self.old.left ++ drop n buf.old) }
        ensures ok { IfOk result (λ n. self.new ≡ record self.old {
          left = drop n self.old.left;
          calls = next_count self.old.calls;
        }) }
        ensures err { OnErr result (self.new ≡ record self.old {
          calls = next_count self.old.calls;
          faults = next_count self.old.faults;
        }) }
    {
        let fails = is_next_among(&self.fails, self.calls);
        self.calls = count_one(self.calls);
        if fails {
            self.faults = count_one(self.faults);
            return Err(Failed);
        }
        let n = buf
            .len()
            .min(self.max_piece.min(self.bytes.len() - self.at));
        buf[..n].copy_from_slice(&self.bytes[self.at..self.at + n]);
        self.at += n;
        Ok(n)
    }
}

/// A sink in memory, with room for [`SINK_ROOM`] bytes.
#[derive(Drop)]
pub struct MemSink {
    bytes: Vec<u8>,
    max_piece: usize,
    fails: Vec<u64>,
    calls: u64,
    faults: u64,
}

impl Model for MemSink {
    ghost use Rattle.std.specs.Prelude.{◌≤◌, ◌<◌, vec_capacity};
    ghost use Rattle.whips_io.specs.Memory.{SinkState};

    ghost Value = { SinkState };

    ghost view = { λ s. record {
      written = s.bytes.items;
      max_piece = s.max_piece;
      fails = s.fails.items;
      calls = s.calls;
      faults = s.faults;
    } };

    ghost invariant = { λ s. (1048576 ≤ vec_capacity s.bytes) × (0 < s.max_piece) };
}

impl MemSink {
    /// An empty sink that takes at most `max_piece` bytes a call. The calls whose numbers, from 1,
    /// are in `fails` fail, and so does a call whose piece, cut to `max_piece` bytes, doesn't fit
    /// into the room.
    pub fn new(alloc: Global, max_piece: usize, fails: Vec<u64>) -> Result<MemSink, NoMemory>
        requires { 0 < max_piece }
        ensures { IfOk result (λ sink. sink ≡ record {
          written = [];
          max_piece = max_piece;
          fails = fails.items;
          calls = 0;
          faults = 0;
        }) }
    {
        let bytes = Vec::with_capacity(alloc, SINK_ROOM)?;
        Ok(MemSink {
            bytes,
            max_piece,
            fails,
            calls: 0,
            faults: 0,
        })
    }

    /// Whether the next call fails where it is to take `n` bytes.
    fn is_failing(&self, n: usize) -> bool
        ensures { IsTrue result ↔ (Contains self.now.fails (self.now.calls + 1)
            ⊎ (SINK_ROOM < length self.now.written + n)) }
    {
        if is_next_among(&self.fails, self.calls) {
            return true;
        }
        !has_room(self.bytes.len(), n)
    }

    /// The bytes written so far.
    pub fn written(&self) -> &[u8]
        ensures { result.now ≡ self.now.written }
    {
        &self.bytes
    }
}

impl Sink for MemSink {
    ghost written = { λ s. Some s.written };

    ghost faults = { λ s. s.faults };

    ghost calls = { λ s. s.calls };

    fn write(&mut self, piece: &[u8]) -> Result<usize, Failed>
        ensures bound { IfOk result (λ n. n ≤ length piece.now) }
        ensures some { IfOk result (λ n. 0 < length piece.now → 0 < n) }
        ensures bytes { WriteAppends
            (Some self.old.written) (Some self.new.written) result piece.now }
        ensures cause { FailsByFault self.old.faults self.new.faults result }
        ensures counted { self.new.calls ≡ next_count self.old.calls }

        // What exactly the call does.
        ensures failed { IsErr result ↔ (Contains self.old.fails (self.old.calls + 1)
            ⊎ (SINK_ROOM < length self.old.written + min (length piece.now) self.old.max_piece)) }
        ensures piece { IfOk result (λ n. n ≡ min (length piece.now) self.old.max_piece) }
        ensures ok { IfOk result (λ n. self.new ≡ record self.old {
          written = self.old.written ++ take n piece.now;
          calls = next_count self.old.calls;
        }) }
        ensures err { OnErr result (self.new ≡ record self.old {
          calls = next_count self.old.calls;
          faults = next_count self.old.faults;
        }) }
    {
        let n = piece.len().min(self.max_piece);
        let fails = self.is_failing(n);
        self.calls = count_one(self.calls);
        if fails {
            self.faults = count_one(self.faults);
            return Err(Failed);
        }
        self.bytes.extend_from_slice(&piece[..n]).unwrap();
        Ok(n)
    }
}
