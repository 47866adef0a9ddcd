//! How far a listing is, for a person who waits for it.

use clause_base::{Log, StepKind};

/// The sizes that a log shows to be searched through, and how many of its steps were looked at for it.
#[derive(Clone, Copy)]
pub(crate) struct Sizes {
    ended: u32,
    looked: usize,
}

impl Sizes {
    /// Behind so many steps, which are a session's: the sizes are searched from 0 again.
    pub(crate) fn behind(steps: usize) -> Sizes {
        Sizes {
            ended: 0,
            looked: steps,
        }
    }

    /// The size that is searched where these are the steps. Each derived step that a listing's search adds ends a size.
    pub(crate) fn size(&mut self, log: &Log) -> u32 {
        for place in self.looked..log.len() {
            if let StepKind::Derived = log.kind(place) {
                self.ended = self.ended.saturating_add(1);
            }
        }
        self.looked = log.len();
        self.ended
    }
}
