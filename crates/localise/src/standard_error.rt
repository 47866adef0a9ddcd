//! Standard error, where notes are printed.

use crate::progress::{Progress, ProgressLine};
use io_ports::write_piece;
use loc_base::NoMemory;
use note_text::push_note;
use refusal::{Note, Notes};
use std::alloc::Global;
use std::io::Write;
use std::time::Clock;

/// Standard error. Nothing that fails there changes the run: a note for which there is no memory isn't printed, and one that
/// can't be written is lost.
#[derive(Drop)]
pub(crate) struct StandardError<'a, W: Write + Drop, C: Clock> {
    alloc: Global,
    writer: W,
    /// Where it is a terminal, the line that shows how far a search is.
    line: Option<ProgressLine<'a, C>>,
}

impl<'a, W: Write + Drop, C: Clock> StandardError<'a, W, C> {
    pub(crate) fn new(
        alloc: Global,
        writer: W,
        line: Option<ProgressLine<'a, C>>,
    ) -> StandardError<'a, W, C> {
        StandardError {
            alloc,
            writer,
            line,
        }
    }

    /// Appends what takes the line away, where one stands.
    fn push_end(&mut self, text: &mut Vec<u8>) -> Result<(), NoMemory> {
        match &mut self.line {
            Some(line) => line.push_end(text),
            None => Ok(()),
        }
    }

    /// Appends the line that shows how far a search is, where one is shown and it is time for it.
    fn push_progress(&mut self, text: &mut Vec<u8>, progress: Progress) -> Result<(), NoMemory> {
        match &mut self.line {
            Some(line) => line.push(text, progress),
            None => Ok(()),
        }
    }

    /// Appends what is printed of a note.
    fn push(&mut self, text: &mut Vec<u8>, note: &Note<'_>) -> Result<(), NoMemory> {
        match *note {
            Note::Progress {
                size,
                sets,
                steps,
                budget,
            } => self.push_progress(
                text,
                Progress {
                    size,
                    sets,
                    steps,
                    budget,
                },
            ),
            _ => {
                self.push_end(text)?;
                push_note(self.alloc, text, note)
            }
        }
    }
}

impl<'a, W: Write + Drop, C: Clock> Notes for StandardError<'a, W, C> {
    fn note(&mut self, note: &Note<'_>) {
        let mut text = Vec::new(self.alloc);
        if self.push(&mut text, note).is_ok() && !text.is_empty() {
            let _ = write_piece(&mut self.writer, text.as_slice());
        }
    }
}
