//! Why a text means no design.
ghost use Rattle.std.specs.Prelude.{◌≡◌};
ghost use Rattle.aiger_text.specs.declared.fault.AigerErr.TheVariants.{NoMemory as OutOfMemory};

use std::alloc::{AllocError, AllocFailed};
use thiserror::Error;

/// Why a text means no design. Lines are counted from 1.
#[derive(Clone, Copy, Debug, PartialEq, Eq, Error)]
pub enum AigerErr {
    #[error("more than 16,777,216 bytes")]
    TooLong,
    #[error("no header `aag M I L O A`")]
    Header,
    #[error("a line that is missing or isn't of its shape")]
    Shape(u64),
    #[error("a literal that is too great, defined wrongly or not defined")]
    Literal(u64),
    #[error("a symbol without its place or its name, or a second symbol or port of one name")]
    Naming(u64),
    #[error("more than 65,536 places, 1,048,576 signals, or 1,048,576 drivers and clocked blocks")]
    Places,
    #[error("out of memory")]
    NoMemory,
}

impl From<AllocError> for AigerErr {
    ghost from_gives = { λ _ e. e ≡ OutOfMemory };

    fn from(_error: AllocError) -> AigerErr {
        AigerErr::NoMemory
    }
}

impl<T: Drop> From<AllocFailed<T>> for AigerErr {
    ghost from_gives = { λ _ e. e ≡ OutOfMemory };

    fn from(_failed: AllocFailed<T>) -> AigerErr {
        AigerErr::NoMemory
    }
}

impl From<loc_base::NoMemory> for AigerErr {
    ghost from_gives = { λ _ e. e ≡ OutOfMemory };

    fn from(_error: loc_base::NoMemory) -> AigerErr {
        AigerErr::NoMemory
    }
}
