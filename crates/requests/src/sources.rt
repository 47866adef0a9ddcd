ghost use Rattle.std.specs.Prelude.{◌≡◌};
ghost use Rattle.requests.specs.Views.{reading_asked, sources_asked};

use crate::texts::Texts;
use loc_base::Name;

/// Texts with the clock by which they are read: of `find` and `sim`.
#[derive(Drop)]
pub struct Reading {
    pub texts: Texts,
    /// The input of the top that is the clock.
    pub clock: Option<Name>,
}

/// Texts with the clock by which they are read, wherever the clock is from: an argument, or a report.
#[derive(Clone, Copy, Drop)]
pub struct Sources<'a> {
    pub texts: &'a Texts,
    pub clock: Option<&'a Name>,
}

impl Reading {
    /// What is read.
    pub fn sources(&self) -> Sources<'_>
        ensures { sources_asked result ≡ reading_asked self.now }
    {
        Sources {
            texts: &self.texts,
            clock: self.clock.as_ref(),
        }
    }
}
