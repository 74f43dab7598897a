//! Sources and sinks, in memory and over streams.
ghost use Rattle.std.specs.Prelude.{◌≤◌, IfOk};

use std::alloc::Global;
use std::io::{ErrorKind, Read, Write};
use whips_io::{
    Failed, MemSink, MemSource, NoMemory, ReadErr, SINK_ROOM, Sink, Source, StdSink, StdSource,
    WriteFault, read_all, write_all,
};

/// Whether the next read into as many bytes gives these, or fails where none are wanted.
fn gives<S: Source>(source: &mut S, room: usize, wanted: Result<&[u8], Failed>) -> bool {
    let mut buf = [0u8; 5];
    if room > buf.len() {
        return false;
    }
    match (source.read(&mut buf[..room]), wanted) {
        (Ok(n), Ok(bytes)) => buf.get(..n) == Some(bytes),
        (Err(_), Err(_)) => true,
        _ => false,
    }
}

/// A source of eight bytes in pieces of three, whose second call fails.
fn eight(alloc: Global) -> Result<MemSource, NoMemory> {
    let bytes = Vec::from_slice(alloc, b"abcdefgh")?;
    Ok(MemSource::new(bytes, 3, Vec::from_slice(alloc, &[2])?))
}

/// The reads, each by its room and what it gives.
const READS: [(usize, Result<&[u8], Failed>); 5] = [
    (5, Ok(b"abc")),
    (5, Err(Failed)),
    (2, Ok(b"de")),
    (5, Ok(b"fgh")),
    (5, Ok(b"")),
];

/// How many reads give what they are to give.
fn count_reads(alloc: Global) -> Result<u32, NoMemory> {
    let mut source = eight(alloc)?;
    let mut count: u32 = 0;
    for (room, wanted) in READS {
        if gives(&mut source, room, wanted) {
            count = count.saturating_add(1);
        }
    }
    Ok(count)
}

#[test]
fn a_source_in_memory_gives_pieces(rt: HostRuntime) {
    assert!(rt; matches!(count_reads(rt.alloc()), Ok(5)));
}

/// A source of `abc` in pieces of two bytes, whose call of this number fails.
fn abc(alloc: Global, failing: u64) -> Result<MemSource, NoMemory> {
    let bytes = Vec::from_slice(alloc, b"abc")?;
    Ok(MemSource::new(bytes, 2, Vec::from_slice(alloc, &[failing])?))
}

/// Whether all of the source is `abc`, or this error comes of it.
fn ends_as(read: Result<Vec<u8>, ReadErr>, wanted: Result<(), ReadErr>) -> bool {
    match read {
        Ok(bytes) => (wanted == Ok(())) & (bytes.as_slice() == b"abc".as_slice()),
        Err(error) => wanted == Err(error),
    }
}

/// Whether reading such a source up to the limit ends so.
fn read_ends_as(
    alloc: Global,
    limit: usize,
    failing: u64,
    wanted: Result<(), ReadErr>,
) -> Result<bool, NoMemory> {
    let mut source = abc(alloc, failing)?;
    Ok(ends_as(read_all(alloc, &mut source, limit), wanted))
}

#[test]
fn a_whole_input_is_read_up_to_the_limit(rt: HostRuntime) {
    let cases = [
        (3, 0, Ok(())),
        (2, 0, Err(ReadErr::TooLong)),
        (3, 3, Err(ReadErr::ReadFault)),
        (0, 0, Err(ReadErr::TooLong)),
        (usize::MAX, 0, Ok(())),
    ];
    for (limit, failing, wanted) in cases {
        let ended = read_ends_as(rt.alloc(), limit, failing, wanted);
        assert!(rt; matches!(ended, Ok(true)), "limit {limit}");
    }
}

/// A text that is written as a whole, or a piece of it in one call, and what comes of it.
#[derive(Clone, Copy)]
enum Written {
    /// The whole text, which succeeds or fails.
    Whole(&'static [u8], bool),
    /// One call, and how many bytes it takes.
    Once(&'static [u8], usize),
}

fn writes(sink: &mut MemSink, write: Written) -> bool {
    match write {
        Written::Whole(text, true) => write_all(sink, text) == Ok(()),
        Written::Whole(text, false) => write_all(sink, text) == Err(WriteFault),
        Written::Once(text, n) => sink.write(text) == Ok(n),
    }
}

/// The writes, each with what is written after it.
const WRITES: [(Written, &[u8]); 5] = [
    (Written::Whole(b"", true), b""),
    (Written::Whole(b"abcd", true), b"abcd"),
    (Written::Whole(b"efgh", false), b"abcd"),
    (Written::Once(b"xyzw", 3), b"abcdxyz"),
    (Written::Whole(b"0", false), b"abcdxyz"),
];

/// How many writes go as they are to go, on a sink in pieces of three whose third and fifth calls fail.
fn count_writes(alloc: Global) -> Result<u32, NoMemory> {
    let fails = Vec::from_slice(alloc, &[3, 5])?;
    let mut sink = MemSink::new(alloc, 3, fails)?;
    let mut count: u32 = 0;
    for (write, written) in WRITES {
        if writes(&mut sink, write) && sink.written() == written {
            count = count.saturating_add(1);
        }
    }
    Ok(count)
}

#[test]
fn a_whole_text_is_written_in_pieces(rt: HostRuntime) {
    assert!(rt; matches!(count_writes(rt.alloc()), Ok(5)));
}

/// Whether the sink takes as many zeros as it has room for, and no byte more.
fn is_full_after(sink: &mut MemSink, zeros: &[u8]) -> bool {
    (write_all(sink, zeros) == Ok(()))
        & (sink.written().len() == 1_048_576)
        & (sink.write(b"") == Ok(0))
        & (sink.write(b"1") == Err(Failed))
}

fn fills(alloc: Global) -> Result<bool, NoMemory> {
    let zeros = vec![in alloc; 0u8; SINK_ROOM]?;
    let mut sink = MemSink::new(alloc, usize::MAX, Vec::new(alloc))?;
    Ok(is_full_after(&mut sink, &zeros))
}

#[test]
fn the_room_of_a_sink_ends(rt: HostRuntime) {
    assert!(rt; matches!(fills(rt.alloc()), Ok(true)));
}

/// A stream that fails at its second call, and then gives and takes nothing.
#[derive(Drop)]
struct Flaky {
    calls: u8,
}

impl Flaky {
    fn step(&mut self, len: usize) -> std::io::Result<usize>
        ensures { IfOk result (λ n. n ≤ len) }
    {
        self.calls = self.calls.saturating_add(1);
        match self.calls {
            1 => Ok(len),
            2 => Err(ErrorKind::BrokenPipe.into()),
            _ => Ok(0),
        }
    }
}

impl Read for Flaky {
    fn read(&mut self, buf: &mut [u8]) -> std::io::Result<usize> {
        self.step(buf.len())
    }
}

impl Write for Flaky {
    fn write(&mut self, buf: &[u8]) -> std::io::Result<usize> {
        self.step(buf.len())
    }

    fn flush(&mut self) -> std::io::Result<()> {
        Ok(())
    }
}

#[test]
fn a_stream_is_a_source(rt: HostRuntime) {
    let mut source = StdSource::over(b"abc".as_slice());
    assert!(rt; ends_as(read_all(rt.alloc(), &mut source, 3), Ok(())));

    let mut flaky = StdSource::over(Flaky { calls: 0 });
    for wanted in [Ok(2), Err(Failed), Ok(0)] {
        let mut buf = [0u8; 2];
        assert!(rt; flaky.read(&mut buf) == wanted, "at {wanted:?}");
    }
}

#[test]
fn a_stream_is_a_sink(rt: HostRuntime) {
    let mut full = StdSink::over(Flaky { calls: 0 });
    let cases: [(&[u8], Result<usize, Failed>); 4] = [
        (b"ab", Ok(2)),
        (b"ab", Err(Failed)),
        (b"ab", Err(Failed)),
        (b"", Ok(0)),
    ];
    for (text, wanted) in cases {
        assert!(rt; full.write(text) == wanted, "at {wanted:?}");
    }
}
