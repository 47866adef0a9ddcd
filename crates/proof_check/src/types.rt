//! The types of the text of a log.

ghost use Rattle.std.specs.Prelude.{◌≡◌};
ghost use Rattle.proof_check.specs.declared.types.LogErr.TheVariants.{NoMemory as WantOfMemory};

use clause_base::Log;
use loc_base::{Digest, NoMemory};
use thiserror::Error;

/// A log with the digest of the inputs that it is for.
#[derive(Drop)]
pub struct LogText {
    pub inputs: Digest,
    pub log: Log,
}

/// Why a text wasn't read as a log.
#[derive(Clone, Copy, Debug, PartialEq, Eq, Error)]
pub enum LogErr {
    /// The text isn't of the form. The line is the first that isn't, counted from 1.
    #[error("line {line} of the log isn't of its form")]
    LogSyntax { line: u64 },
    #[error("out of memory")]
    NoMemory,
}

impl From<NoMemory> for LogErr {
    ghost from_gives = { λ _ e. e ≡ WantOfMemory };

    fn from(_want: NoMemory) -> LogErr {
        LogErr::NoMemory
    }
}
