//! What is chosen by the headers of a slot's entries.
ghost use Rattle.std.specs.Prelude.{◌≡◌, ◌≤◌, ◌==◌, length};
ghost use Rattle.std.specs.List.{position_or_len};
ghost use Rattle.whips_slot_words.specs.Words.{greatest, least, entry_of, taken, target_of};

/// The greatest header with a version at most `v`, or 0.
pub fn greatest(v: u64, headers: &[u64]) -> u64
    ensures { result ≡ greatest v headers.now }
{
    match headers {
        [] => 0,
        [header, headers @ ..] => {
            let others = greatest(v, headers);
            if header / 4 <= v {
                others.max(*header)
            } else {
                others
            }
        }
    }
}

/// The least header, or 0 where there is none.
fn least(headers: &[u64]) -> u64
    ensures { result ≡ least headers.now }
{
    match headers {
        [] => 0,
        [header] => *header,
        [header, headers @ ..] => least(headers).min(*header),
    }
}

/// The first entry with this header.
fn entry_of(header: u64, headers: &[u64]) -> usize
    ensures entry { result ≡ entry_of header headers.now }
    ensures within { result ≤ length headers.now }
{
    match headers {
        [] => 0,
        [first, headers @ ..] => {
            if *first == header {
                0
            } else {
                1 + entry_of(header, headers)
            }
        }
    }
}

/// The entry that a reader at `v` takes: the one with the greatest header of those with a version at most `v`.
pub fn taken(v: u64, headers: &[u64]) -> u32
    requires { length headers.now ≤ 4 }
    ensures { result ≡ taken v headers.now }
{
    entry_of(greatest(v, headers), headers) as u32
}

/// The entry in which the next change of the slot is stored: the one with the least header, the first one where some are
/// equal.
pub fn target(headers: &[u64]) -> u32
    requires { length headers.now ≤ 4 }
    ensures { result ≡ target_of headers.now }
{
    entry_of(least(headers), headers) as u32
}
