//! How far a search is, on a terminal: one line that is written over.

use loc_base::NoMemory;
use printed_text::{push_bytes, push_number};
use std::time::{Clock, Duration, Instant};

/// The line is written over once so many milliseconds have passed. A run that is shorter shows none.
const PAUSE: u64 = 100;

/// How far a search is: the size that is searched, the sets that are found, the steps that are learned, and how many may be.
#[derive(Clone, Copy)]
pub(crate) struct Progress {
    pub(crate) size: u32,
    pub(crate) sets: u32,
    pub(crate) steps: u32,
    pub(crate) budget: u32,
}

/// The line of a terminal that shows it.
#[derive(Drop)]
pub(crate) struct ProgressLine<'a, C: Clock> {
    clock: &'a C,
    begun: Instant,
    /// When the line was written last, or else the run begun.
    written: Instant,
    /// Whether the line stands on the terminal.
    stands: bool,
}

/// Appends a number and what is counted.
fn push_count(text: &mut Vec<u8>, count: u64, words: &[u8]) -> Result<(), NoMemory> {
    push_number(text, count)?;
    push_bytes(text, words)
}

/// Appends the line over the one that stands there.
fn push_line(text: &mut Vec<u8>, progress: Progress, time: Duration) -> Result<(), NoMemory> {
    push_bytes(text, b"\rsize ")?;
    push_count(text, u64::from(progress.size), b": ")?;
    push_count(text, u64::from(progress.sets), b" sets, ")?;
    push_count(text, u64::from(progress.steps), b" of ")?;
    push_count(text, u64::from(progress.budget), b" steps learned, ")?;
    push_count(text, time.as_secs(), b" s\x1b[K")
}

impl<'a, C: Clock> ProgressLine<'a, C> {
    /// A line that isn't written yet. There is none where the clock can't be read.
    pub(crate) fn new(clock: &'a C) -> Option<ProgressLine<'a, C>> {
        let begun = Instant::now(clock).ok()?;
        Some(ProgressLine {
            clock,
            begun,
            written: begun,
            stands: false,
        })
    }

    /// Appends the line where it is time for it.
    pub(crate) fn push(&mut self, text: &mut Vec<u8>, progress: Progress) -> Result<(), NoMemory> {
        let Ok(now) = Instant::now(self.clock) else {
            return Ok(());
        };
        if now.duration_since(self.written) < Duration::from_millis(PAUSE) {
            return Ok(());
        }
        push_line(text, progress, now.duration_since(self.begun))?;
        self.written = now;
        self.stands = true;
        Ok(())
    }

    /// Appends what takes the line away, where it stands.
    pub(crate) fn push_end(&mut self, text: &mut Vec<u8>) -> Result<(), NoMemory> {
        if self.stands {
            push_bytes(text, b"\r\x1b[K")?;
            self.stands = false;
        }
        Ok(())
    }
}
