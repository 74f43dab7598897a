//! The program `whips_manager_bench`. Its one word is a number of transactions, from 1 to 4096. A manager of a joined view
//! takes them all before the first of its asks is answered, and the line that the program writes counts what came of them.
#![tactic(auto)]

mod data;
mod run;
mod source;
mod stop;

use crate::run::{Counts, run};
use crate::stop::Stop;
use std::env;
use std::process::ExitCode;
use std::rt::Env;

/// The most transactions.
const MOST: u64 = 4096;

/// The status where the words aren't one number from 1 to 4096.
const USAGE: u8 = 2;

/// The status where the line can't be written.
const NOT_WRITTEN: u8 = 5;

fn main(rt: HostRuntime) -> ExitCode {
    let Some(updates) = number(&rt) else {
        let _ = eprintln!(rt; "usage: whips_manager_bench NUMBER, from 1 to {MOST}");
        return ExitCode::from(USAGE);
    };
    match run(rt.alloc(), updates) {
        Ok(counts) => {
            let Counts {
                asks,
                found,
                actions,
                rows,
            } = counts;
            match println!(rt;
                "updates {updates} asks {asks} found {found} actions {actions} rows {rows}"
            ) {
                Ok(()) => ExitCode::SUCCESS,
                Err(_) => ExitCode::from(NOT_WRITTEN),
            }
        }
        Err(stop) => ExitCode::from(stop.status()),
    }
}

/// The number that the one word is. Words that aren't all text are no number.
fn number<R: Env + AllocGlobal>(rt: &R) -> Option<u64> {
    let mut words = env::args(rt).ok()?.skip(1);
    let word = words.next()?;
    if words.next().is_some() {
        return None;
    }
    word.as_str().parse().ok().filter(|n| 1 <= *n && *n <= MOST)
}
