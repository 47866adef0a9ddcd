//! `bench_tool form|solve|size|dump WORD..`: runs a part of the product alone, for measurements and to be held against other
//! programs. What each word runs is said in its module.
#![tactic(auto)]

mod dump;
mod failure;
mod form;
mod input;
mod size;
mod solve;

use crate::failure::Failure;
use crate::input::words;
use std::process::ExitCode;

/// Runs what the first word names, with the words behind it, and gives the exit status.
fn run(rt: &HostRuntime) -> Result<u8, Failure> {
    let words = words(rt)?;
    let [part, rest @ ..] = words.as_slice() else {
        return Err(Failure::Words);
    };
    match part.as_str() {
        "form" => form::run(rt, rest),
        "solve" => Ok(solve::run(rt, rest)),
        "size" => size::run(rt, rest),
        "dump" => dump::run(rt, rest),
        _ => Err(Failure::Words),
    }
}

fn main(rt: HostRuntime) -> ExitCode {
    match run(&rt) {
        Ok(status) => ExitCode::from(status),
        Err(failure) => {
            let _printed = eprintln!(rt; "{failure}");
            ExitCode::from(2)
        }
    }
}
