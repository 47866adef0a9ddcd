//! Why a text is refused.
ghost use Rattle.std.specs.Prelude.{◌≡◌};
ghost use Rattle.refusal.specs.Codes.{code_line, code_status};
ghost use Rattle.refusal.specs.Ends.{HasStatus, Says};

use crate::code::Code;
use crate::last_line::LastLine;
use crate::words::Words;
use std::alloc::Global;
use std::fmt::{Display, Write};
use thiserror::Error;

/// Why a text is refused: the code that is printed, and words for a person, which `Display` writes. It takes no memory: words of
/// more than 160 bytes are cut.
#[derive(Clone, Copy, Debug, Error)]
#[error("{words}")]
pub struct Refusal {
    pub code: Code,
    words: Words,
}

impl Refusal {
    /// The refusal of a code, for a cause.
    pub fn of<E: Display>(code: Code, cause: &E) -> Refusal
        ensures { result.code ≡ code }
    {
        let mut words = Words::new();
        // Words that don't fit are cut where they no longer do.
        let _ = write!(words, "{cause}");
        Refusal { code, words }
    }

    /// The line that ends a run with this refusal.
    pub fn last_line(&self, alloc: Global) -> LastLine
        ensures says { Says result (code_status self.now.code) (code_line self.now.code) }
        ensures status { HasStatus result }
    {
        LastLine::of_code(alloc, self.code)
    }
}
