//! What is told to a person beside the output.

use crate::refusal::Refusal;
use io_ports::FaultKind;
use loc_base::{Bits, Name};

/// One thing that is told.
#[derive(Clone, Copy)]
pub enum Note<'a> {
    /// The arguments are refused: why, the one that is wrong, where it is known, or else no bytes, and how the command is called.
    Usage {
        cause: &'a Refusal,
        word: &'a str,
        synopsis: &'a [u8],
    },
    /// The text under a name is refused.
    Refused {
        name: &'a str,
        text: &'a [u8],
        refusal: &'a Refusal,
    },
    /// What was read is refused as a whole: it passes a limit, or a report's kinds of suspects aren't there.
    Limited {
        refusal: &'a Refusal,
    },
    /// The text under a name can't be read.
    Unread {
        name: &'a str,
        cause: FaultKind,
    },
    /// The text under a name, or of no name the output, can't be written.
    Unwritten {
        name: &'a str,
        cause: FaultKind,
    },
    /// The scope of a dump that was taken: the number of the trace, from 1, and the scope's path.
    Scope {
        trace: u32,
        path: &'a str,
    },
    /// The first output of a trace that isn't as expected: the number of the trace, from 1, and the cycle, from 0.
    Missed {
        trace: u32,
        cycle: u32,
        output: &'a Name,
        wanted: Bits,
        given: Bits,
    },
    /// How far a search is: the size that is searched, the sets that are found, the steps that are learned, and how many may be.
    Progress {
        size: u32,
        sets: u32,
        steps: u32,
        budget: u32,
    },
    /// Lines are about to be printed on the output.
    Printing,
    /// The text under a name stands written.
    Written {
        name: &'a str,
    },
}

/// What is told to a person is told here. No clause says what becomes of it.
pub trait Notes {
    /// Takes a note.
    fn note(&mut self, note: &Note<'_>);
}

/// Notes that nobody reads.
#[derive(Clone, Copy, Debug)]
pub struct NoNotes;

impl Notes for NoNotes {
    fn note(&mut self, _note: &Note<'_>) {}
}
