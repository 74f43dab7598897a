// A whole input and a whole output.
ghost use Rattle.std.specs.Prelude.{◌≡◌, ◌≢◌, ℕ, ◌+◌, ◌≤◌, ◌<◌, List, ◌++◌, length, take, IfOk, OnOk, OnErr, IfErr, Err};
ghost use Rattle.std.specs.Io.KnownBytes.{Consumes, Appends, IsAtEnd};
ghost use Rattle.whips_io.specs.Counts.{FailsByFault, HasRisen};
ghost use Rattle.whips_io.specs.Bytes.{ConsumesExactly, ConsumesAtMost};

use super::{Failed, Sink, Source};
use std::alloc::Global;

/// The most bytes that one call of `read` is asked for.
const PIECE: usize = 8192;

/// Why a whole input wasn't read.
#[derive(Clone, Copy, Debug, PartialEq, Eq)]
pub enum ReadErr {
    /// A call of `read` failed.
    ReadFault,
    /// There were more bytes than the limit.
    TooLong,
    /// There was no memory for the bytes.
    NoMemory,
}

/// A call of `write` failed.
#[derive(Clone, Copy, Debug, PartialEq, Eq)]
pub struct WriteFault;

/// Reads all bytes up to the end, and at most `limit` of them, by at most `limit + 1` reads.
///
/// `TooLong` comes once `limit + 1` bytes were taken. After an error the bytes that were taken
/// are lost.
pub fn read_all<I: Source>(alloc: Global, input: &mut I, limit: usize) -> Result<Vec<u8>, ReadErr>
    ensures ok { IfOk result (λ bytes. (length bytes.items ≤ limit)
        × Consumes (I.left input.old) (I.left input.new) bytes.items × IsAtEnd (I.left input.new)) }
    ensures long { result ≡ Err ReadErr.TooLong →
        ConsumesExactly (limit + 1) (I.left input.old) (I.left input.new) }
    ensures fault { result ≡ Err ReadErr.ReadFault →
        HasRisen (I.faults input.old) (I.faults input.new)
        × ConsumesAtMost limit (I.left input.old) (I.left input.new) }
    ensures memory { result ≡ Err ReadErr.NoMemory →
        ConsumesAtMost (limit + 1) (I.left input.old) (I.left input.new) }
    ensures kept { I.faults input.old ≤ I.faults input.new }
    ensures counted { I.calls input.new ≤ I.calls input.old + (limit + 1) }
{
    let mut bytes = Vec::new(alloc);
    while bytes.len() <= limit {
        let room = (limit - bytes.len()).saturating_add(1);
        let n = read_piece(input, &mut bytes, room)?;
        if n == 0 {
            return Ok(bytes);
        }
    }
    Err(ReadErr::TooLong)
}

/// Reads one piece of at most `room` bytes, and adds it to `bytes`.
fn read_piece<I: Source>(input: &mut I, bytes: &mut Vec<u8>, room: usize) -> Result<usize, ReadErr>
    requires { 0 < room }
    ensures ok { IfOk result (λ n. (n ≤ room) × ((piece : List ℕ) × (length piece ≡ n)
        × (bytes.new.items ≡ bytes.old.items ++ piece)
        × Consumes (I.left input.old) (I.left input.new) piece)) }
    ensures end { IfOk result (λ n. n ≡ 0 → IsAtEnd (I.left input.new)) }
    ensures fault { result ≡ Err ReadErr.ReadFault →
        HasRisen (I.faults input.old) (I.faults input.new)
        × ConsumesAtMost 0 (I.left input.old) (I.left input.new) }
    ensures memory { result ≡ Err ReadErr.NoMemory →
        ConsumesAtMost room (I.left input.old) (I.left input.new) }
    ensures long { result ≢ Err ReadErr.TooLong }
    ensures kept { I.faults input.old ≤ I.faults input.new }
    ensures counted { I.calls input.new ≤ I.calls input.old + 1 }
{
    let mut buf = [0u8; PIECE];
    let size = if room < PIECE { room } else { PIECE };
    match input.read(&mut buf[..size]) {
        Ok(n) => {
            if bytes.extend_from_slice(&buf[..n]).is_err() {
                return Err(ReadErr::NoMemory);
            }
            Ok(n)
        }
        Err(Failed) => Err(ReadErr::ReadFault),
    }
}

/// Writes all the bytes, by at most as many writes as there are bytes.
///
/// After `WriteFault` a prefix of them was written.
pub fn write_all<O: Sink>(output: &mut O, bytes: &[u8]) -> Result<(), WriteFault>
    ensures ok { OnOk result (Appends (O.written output.old) (O.written output.new) bytes.now) }
    ensures prefix { OnErr result ((n : ℕ) × (n < length bytes.now)
        × Appends (O.written output.old) (O.written output.new) (take n bytes.now)) }
    ensures cause { FailsByFault (O.faults output.old) (O.faults output.new) result }
    ensures counted { O.calls output.new ≤ O.calls output.old + length bytes.now }
{
    let mut at = 0;
    while at < bytes.len() {
        match output.write(&bytes[at..]) {
            Ok(n) => at += n,
            Err(Failed) => return Err(WriteFault),
        }
    }
    Ok(())
}
