//! A small log with a step of each kind.

use loc_base::NoMemory;
use log_portions::{head_text, portion};
use proof_check::read_log;
use proof_check::types::{LogErr, LogText};
use std::alloc::Global;

/// The two first lines, with a digest of zeros.
const HEAD: &[u8] =
    b"localise-log 1\ninputs 0000000000000000000000000000000000000000000000000000000000000000\n";

/// The lines of the steps, each with where it begins.
const STEPS: &[u8] = b"b -1 -2\nl 5 -3 : 4 7 9\nb\nd : 21\n";

const PLACES: [usize; 6] = [0, 8, 23, 25, 32, 32];

fn whole(alloc: Global) -> Result<Vec<u8>, NoMemory> {
    let mut text = Vec::from_slice(alloc, HEAD)?;
    text.extend_from_slice(STEPS)?;
    Ok(text)
}

fn read(alloc: Global) -> Result<LogText, LogErr> {
    read_log(alloc, &whole(alloc)?)
}

#[test]
fn the_head_is_that_of_the_text(rt: HostRuntime) {
    let same = match read(rt.alloc()) {
        Ok(log) => match head_text(rt.alloc(), &log.inputs) {
            Ok(head) => head.as_slice() == HEAD,
            Err(NoMemory) => false,
        },
        Err(_) => false,
    };
    assert!(rt; same);
}

/// Whether the lines from each step on, and those behind the last, which are none, are those of the text.
fn are_the_lines(alloc: Global, log: &LogText) -> bool {
    for (from, place) in PLACES.iter().enumerate() {
        let same = match portion(alloc, &log.log, from) {
            Ok(text) => text.as_slice() == &STEPS[*place..],
            Err(NoMemory) => false,
        };
        if !same {
            return false;
        }
    }
    true
}

#[test]
fn the_lines_from_each_step_on_are_those_of_the_text(rt: HostRuntime) {
    let same = match read(rt.alloc()) {
        Ok(log) => are_the_lines(rt.alloc(), &log),
        Err(_) => false,
    };
    assert!(rt; same);
}
