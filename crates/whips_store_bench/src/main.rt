//! The program `whips_store_bench`: transactions on a plain store of one view, for measuring.
//!
//! Its two words are the number of slots, all but one of which have a row, and the number of transactions. It prints what
//! it did.
#![tactic(auto)]

mod command;
mod rows;
mod start;
mod stop;
mod transactions;

use crate::command::{Size, read_size};
use crate::start::first_store;
use crate::stop::Stop;
use crate::transactions::make_all;
use std::alloc::{AllocError, Global};
use std::io::ErrorKind;
use std::process::ExitCode;
use std::rt::Env;
use std::{env, io};
use whips_store::Store;

/// The status where the words are no command.
const USAGE: u8 = 2;

/// The status where the line can't be written.
const NOT_WRITTEN: u8 = 5;

/// The status where memory is wanting.
const NO_MEMORY: u8 = 6;

/// The status where the store is full.
const FULL: u8 = 7;

/// The status where a setup or a transaction that this program makes is refused.
const REFUSED: u8 = 8;

/// What the transactions came to.
#[derive(Clone, Copy)]
struct Summary {
    changes: u64,
    version: u64,
}

fn main(rt: HostRuntime) -> ExitCode {
    let words = match words(&rt) {
        Ok(words) => words,
        Err(_) => return ExitCode::from(NO_MEMORY),
    };
    match read_size(&words) {
        Some(size) => report(&rt, size),
        None => ended(
            println!(rt;
                "usage: whips_store_bench ROWS TRANSACTIONS, 1 to 4096 rows and 0 to 4096 transactions"
            ),
            USAGE,
        ),
    }
}

/// Runs transactions of this size, and prints what came of them.
fn report(rt: &HostRuntime, size: Size) -> ExitCode {
    match run(rt.alloc(), size) {
        Ok(summary) => ended(
            println!(rt;
                "rows {} transactions {} changes {} last version {}",
                size.rows, size.transactions, summary.changes, summary.version
            ),
            0,
        ),
        Err(Stop::Full(view, need, have)) => ended(
            println!(rt; "full: view {view} needs {need} slots and has {have}"),
            FULL,
        ),
        Err(Stop::Refused) => ExitCode::from(REFUSED),
        Err(Stop::NoMemory) => ExitCode::from(NO_MEMORY),
    }
}

/// The status after a line was printed: this one, if it was.
fn ended(printed: io::Result<()>, status: u8) -> ExitCode {
    match printed {
        Ok(()) => ExitCode::from(status),
        Err(_) => ExitCode::from(NOT_WRITTEN),
    }
}

/// Makes the store and the transactions.
fn run(alloc: Global, size: Size) -> Result<Summary, Stop> {
    let mut store = first_store(alloc, size.rows)?;
    let changes = make_all(alloc, &mut store, size.transactions)?;
    Ok(Summary {
        changes,
        version: store.phase() / 2,
    })
}

/// The words after the program's name. Words that aren't all text are no command, and are left out.
fn words<R: Env + AllocGlobal>(rt: &R) -> Result<Vec<String>, AllocError> {
    match env::args(rt) {
        Ok(args) => args.skip(1).collect(rt.alloc()),
        Err(error) => {
            if error.kind() == ErrorKind::OutOfMemory {
                return Err(AllocError);
            }
            Ok(Vec::new(rt.alloc()))
        }
    }
}
