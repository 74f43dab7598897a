//! The program `whips`. With the one word `run` it reads a script from standard input, runs it, and
//! writes the report of the run to standard output.
#![tactic(auto)]

use std::alloc::AllocError;
use std::env;
use std::io::ErrorKind;
use std::process::ExitCode;
use std::rt::Env;
use whips_io::{StdSink, StdSource};
use whips_run::run;

/// The status of a program that finds no memory for its words.
const NO_MEMORY: u8 = 6;

fn main(rt: HostRuntime) -> ExitCode {
    match words(&rt) {
        Ok(words) => {
            let mut input = StdSource::over(rt.stdin());
            let mut output = StdSink::over(rt.stdout());
            let ended = run(rt.alloc(), &words, &mut input, &mut output);
            ExitCode::from(ended.status)
        }
        Err(_) => ExitCode::from(NO_MEMORY),
    }
}

/// The words after the program's name. Words that aren't all text are no command, and are left out.
fn words<R: Env + AllocGlobal>(rt: &R) -> Result<Vec<String>, AllocError> {
    match env::args(rt) {
        Ok(args) => args.skip(1).collect(rt.alloc()),
        Err(error) => {
            if error.kind() == ErrorKind::OutOfMemory {
                return Err(AllocError);
            }
            Ok(Vec::new(rt.alloc()))
        }
    }
}
