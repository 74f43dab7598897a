//! Scripts that are made and run.
use crate::run::{NOTHING, run_on};
use std::alloc::Global;
use whips_rel::NoMemory;

/// What is written where the words are no command.
const USAGE: &[u8] = b"usage: whips run, check or make START SIZE\n";

/// Words, with the status in which a call with them ends, and what it writes.
const CALLS: &[(&[&str], u8, &[u8])] = &[
    (
        &["make", "0", "1"],
        0,
        b"make 0 1\nupdates 1 versions 1 rows lines=0 big=1\nreads 1 more 2 expired 0\nfinal sales=1 stock=0\n",
    ),
    (&[], 2, USAGE),
    (&["make"], 2, USAGE),
    (&["make", "0"], 2, USAGE),
    (&["make", "0", "0"], 2, USAGE),
    (&["make", "0", "4097"], 2, USAGE),
    (&["make", "0", "01"], 2, USAGE),
    (&["make", "00", "1"], 2, USAGE),
    (&["make", "+1", "1"], 2, USAGE),
    (&["make", "4294967296", "1"], 2, USAGE),
    (&["make", "0", "1", "2"], 2, USAGE),
    (&["run", "0", "1"], 2, USAGE),
];

/// Whether a call with these words ends so.
fn ends_as(alloc: Global, words: &[&str], wanted: (u8, &[u8])) -> Result<bool, NoMemory> {
    let (status, output) = run_on(alloc, words, b"", NOTHING)?;
    Ok((status == wanted.0) & (output.written() == wanted.1))
}

#[test]
fn a_script_is_made_of_two_numbers(rt: HostRuntime) {
    for (words, status, wanted) in CALLS {
        let ended = ends_as(rt.alloc(), words, (*status, *wanted));
        assert!(rt; matches!(ended, Ok(true)), "with {words:?}");
    }
}

/// Whether two calls with these words end with 0 and write the same.
fn repeats(alloc: Global, words: &[&str]) -> Result<bool, NoMemory> {
    let (status, first) = run_on(alloc, words, b"", NOTHING)?;
    let second = ends_as(alloc, words, (0, first.written()))?;
    Ok((status == 0) & second)
}

#[test]
fn a_made_run_is_the_same_each_time(rt: HostRuntime) {
    for words in [&["make", "1", "2000"], &["make", "4294967295", "64"]] {
        let repeated = repeats(rt.alloc(), words);
        assert!(rt; matches!(repeated, Ok(true)), "with {words:?}");
    }
}
