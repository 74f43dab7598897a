//! The program `whips_merge_bench`. Its two words are a number of transactions, from 1 to 4096, and how many of them each
//! list covers, from 1 up to all. A merge of two views is told of all transactions before the first list comes, and the line
//! that the program writes counts what the merge handed out.
#![tactic(auto)]

ghost use Rattle.std.specs.Prelude.{◌≤◌, IfSome};

mod data;
mod run;
mod stop;

use crate::run::{Counts, run};
use crate::stop::Stop;
use std::env;
use std::process::ExitCode;
use std::rt::Env;

/// The most transactions.
const MOST: u64 = 4096;

/// The status where the words aren't two such numbers.
const USAGE: u8 = 2;

/// The status where the line can't be written.
const NOT_WRITTEN: u8 = 5;

fn main(rt: HostRuntime) -> ExitCode {
    let Some((transactions, covered)) = numbers(&rt) else {
        let _ = eprintln!(rt;
            "usage: whips_merge_bench TRANSACTIONS COVERED, 1 to {MOST} and 1 to TRANSACTIONS"
        );
        return ExitCode::from(USAGE);
    };
    match run(rt.alloc(), transactions, covered) {
        Ok(counts) => {
            let Counts { sets, rows, lists } = counts;
            match println!(rt;
                "transactions {transactions} sets {sets} rows {rows} lists {lists}"
            ) {
                Ok(()) => ExitCode::SUCCESS,
                Err(_) => ExitCode::from(NOT_WRITTEN),
            }
        }
        Err(stop) => ExitCode::from(stop.status()),
    }
}

/// The two numbers that the words are. Words that aren't all text are no numbers.
fn numbers<R: Env + AllocGlobal>(rt: &R) -> Option<(u64, u64)>
    ensures { IfSome result (λ n. (n.0 ≤ MOST) × (1 ≤ n.1)) }
{
    let mut words = env::args(rt).ok()?.skip(1);
    let transactions = number(words.next()?.as_str(), MOST)?;
    let covered = number(words.next()?.as_str(), transactions)?;
    if words.next().is_some() {
        return None;
    }
    Some((transactions, covered))
}

/// The number that the word is, where it is from 1 to `most`.
fn number(word: &str, most: u64) -> Option<u64>
    ensures { IfSome result (λ n. (1 ≤ n) × (n ≤ most)) }
{
    let number = word.parse().ok()?;
    if 1 <= number && number <= most {
        Some(number)
    } else {
        None
    }
}
