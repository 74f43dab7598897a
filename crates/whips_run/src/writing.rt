//! Texts that are written whole.
ghost use Rattle.std.specs.Prelude.{◌≡◌, ◌≢◌, ◌<◌, ℕ, length, take};
ghost use Rattle.std.specs.Io.KnownBytes.{Appends};
ghost use Rattle.whips_io.specs.Counts.{HasRisen};

use whips_io::{Sink, WriteFault, write_all};

/// Writes the text and gives the status, or 5 where the sink failed.
pub(crate) fn end_with_bytes<O: Sink>(status: u8, text: &[u8], output: &mut O) -> u8
    ensures ended { result ≢ 5 → (result ≡ status)
        × Appends (O.written output.old) (O.written output.new) text.now }
    ensures sink_failed { result ≡ 5 → status ≢ 5 → (n : ℕ) × (n < length text.now)
        × Appends (O.written output.old) (O.written output.new) (take n text.now)
        × HasRisen (O.faults output.old) (O.faults output.new) }
{
    match write_all(output, text) {
        Ok(()) => status,
        Err(WriteFault) => 5,
    }
}

/// Writes the text and gives the status, or 5 where the sink failed.
pub(crate) fn end_with<O: Sink>(status: u8, text: &str, output: &mut O) -> u8
    ensures ended { result ≢ 5 → (result ≡ status)
        × Appends (O.written output.old) (O.written output.new) text.now }
    ensures sink_failed { result ≡ 5 → status ≢ 5 → (n : ℕ) × (n < length text.now)
        × Appends (O.written output.old) (O.written output.new) (take n text.now)
        × HasRisen (O.faults output.old) (O.faults output.new) }
{
    end_with_bytes(status, text.as_bytes(), output)
}
