//! When a checkpoint is due.
ghost use Rattle.std.specs.Prelude.{◌≡◌};
ghost use Rattle.list_writer.specs.CheckpointNames.{other};
ghost use Rattle.list_writer.specs.declared.pair.Pair.TheVariants.{First};

use crate::pair::Pair;

/// How many steps the log of a listing had when a checkpoint was made, and how many the checkpoint's own log has, with its certificate.
#[derive(Clone, Copy)]
pub(crate) struct Size {
    pub(crate) steps: usize,
    pub(crate) whole: usize,
}

/// The checkpoints of a listing so far: the pair that the next one has, and the size of the last one, where there is one.
#[derive(Clone, Copy)]
pub(crate) struct Saves {
    pub(crate) next: Pair,
    last: Option<Size>,
}

impl Saves {
    /// None so far.
    pub(crate) fn none() -> Saves
        ensures { result.next ≡ First }
    {
        Saves {
            next: Pair::First,
            last: None,
        }
    }

    /// Whether the next one is due where the listing's log has so many steps: it is the first, or the log has grown by a quarter of what
    /// the last one has. So the logs of all checkpoints together have at most five times the steps of the last one.
    pub(crate) fn is_due(&self, steps: usize) -> bool {
        match self.last {
            None => true,
            Some(last) => steps.saturating_sub(last.steps) > last.whole.saturating_sub(1) / 4,
        }
    }

    /// Behind one of this size.
    pub(crate) fn behind(self, size: Size) -> Saves
        ensures { result.next ≡ other self.next }
    {
        Saves {
            next: self.next.other(),
            last: Some(size),
        }
    }
}
