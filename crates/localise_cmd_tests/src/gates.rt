//! The work of several workers: each piece of it passes the gate, and where one is held the others go on.

use crate::runs::{Ran, found, printed, run, run_by, texts_with, words, written};
use crate::same::same;
use loc_base::Gate;
use std::sync::atomic::{AtomicU32, Ordering};
use std::test::Fail;

/// How many pieces a gate knows.
const PIECES: usize = 8;

/// A gate that counts how often each of the first eight pieces enters. It holds piece 0, if it is told to, until piece 1 has entered
/// as often, for at most 100,000,000 turns, and counts how often that came.
#[derive(Drop)]
struct NotingGate {
    holds: bool,
    entries: [AtomicU32; PIECES],
    met: AtomicU32,
}

impl NotingGate {
    fn new(holds: bool) -> NotingGate {
        NotingGate {
            holds,
            entries: [
                AtomicU32::new(0),
                AtomicU32::new(0),
                AtomicU32::new(0),
                AtomicU32::new(0),
                AtomicU32::new(0),
                AtomicU32::new(0),
                AtomicU32::new(0),
                AtomicU32::new(0),
            ],
            met: AtomicU32::new(0),
        }
    }

    fn hold(&self, times: u32) {
        for _turn in 0..100_000_000u32 {
            if self.entries[1].load(Ordering::SeqCst) >= times {
                self.met.fetch_add(1, Ordering::SeqCst);
                return;
            }
        }
    }

    /// Whether each of the first pieces entered once, and no other.
    fn is_entered_by(&self, pieces: usize) -> bool {
        for piece in 0..PIECES {
            let times = if piece < pieces { 1 } else { 0 };
            if self.entries[piece].load(Ordering::SeqCst) != times {
                return false;
            }
        }
        true
    }
}

impl Gate for NotingGate {
    fn enter(&self, piece: u32) {
        if piece < 8 {
            let times = self.entries[piece as usize]
                .fetch_add(1, Ordering::SeqCst)
                .wrapping_add(1);
            if self.holds && piece == 0 {
                self.hold(times);
            }
        }
    }
}

/// How many lines a text has.
fn lines(text: &[u8]) -> usize {
    let mut count = 0usize;
    for byte in text {
        if *byte == b'\n' {
            count = count.wrapping_add(1);
        }
    }
    count
}

/// How many pieces the log of a run is cut into: each but the last has as many steps as there are for each worker, rounded up.
fn pieces_of(ran: &Ran, workers: usize) -> usize {
    let steps = lines(written(ran, "localise.log")).wrapping_sub(2);
    let each = if workers == 0 {
        0
    } else {
        steps.div_ceil(workers)
    };
    if each == 0 { 0 } else { steps.div_ceil(each) }
}

/// Words, and how many workers they ask for.
const LOGGED: [(&str, usize); 4] = [
    ("find m.v m t.vcd", 1),
    ("find m.v m t.vcd --workers 2", 2),
    ("find m.v m t.vcd --workers 7", 7),
    ("make 0 --workers 8", 8),
];

/// The log of a whole list is checked before the list is said to be complete.
#[test]
fn each_piece_of_the_log_of_a_whole_list_enters_once(rt: HostRuntime) -> Result<(), Fail> {
    let alloc = rt.alloc();
    for (line, workers) in &LOGGED {
        let gate = NotingGate::new(false);
        let ran = run_by(&rt, alloc, texts_with(alloc, None)?, words(*line), &gate)?;
        same(&rt, line, &ran.status, &0);
        let pieces = pieces_of(&ran, *workers);
        same(&rt, line, &(pieces > 1), &(*workers > 1));
        same(&rt, line, &gate.is_entered_by(pieces), &true);
    }
    Ok(())
}

/// Words, and how often several workers begin: the log of a list is checked by them, and before it, by `check`, the sets' values.
const HELD: [(&str, &str, u32); 3] = [
    ("make 7", "make 7 --workers 2", 1),
    ("find m.v m t.vcd", "find m.v m t.vcd --workers 4", 1),
    (
        "check m.v m r l t.vcd u.vcd",
        "check m.v m r l t.vcd u.vcd --workers 4",
        2,
    ),
];

/// Each time the second worker begins while the first one is held. What is printed and written is what one worker leaves.
#[test]
fn a_piece_that_is_held_holds_no_other_and_changes_nothing(rt: HostRuntime) -> Result<(), Fail> {
    let alloc = rt.alloc();
    let found = found(&rt, alloc)?;
    for (plain, line, times) in &HELD {
        let texts = texts_with(alloc, Some(&found))?;
        let one = run(&rt, alloc, texts, *plain)?;
        let gate = NotingGate::new(true);
        let texts = texts_with(alloc, Some(&found))?;
        let more = run_by(&rt, alloc, texts, words(*line), &gate)?;
        same(&rt, line, &gate.met.load(Ordering::SeqCst), times);
        same(&rt, line, &(one.status, more.status), &(0, 0));
        same(&rt, line, &printed(&more), &printed(&one));
        for name in ["localise.log", "localise.json"] {
            same(&rt, line, &written(&more, name), &written(&one, name));
        }
    }
    Ok(())
}
