ghost use Rattle.std.specs.Prelude.{◌≡◌};

use crate::fault_kind::FaultKind;
use loc_base::NoMemory;
use std::alloc::AllocError;
use thiserror::Error;

/// Why a text is not loaded.
#[derive(Clone, Copy, Debug, PartialEq, Eq, Error)]
pub enum LoadErr {
    /// The text has more bytes than the limit.
    #[error("the text is longer than it may be")]
    TooBig,
    /// The shelf has no such text, or it failed. Its count of faults rose.
    #[error(transparent)]
    Failed(FaultKind),
    /// Memory was refused.
    #[error("out of memory")]
    NoMemory,
}

/// Why a text of a shelf is not begun, or a piece not appended to it.
#[derive(Clone, Copy, Debug, PartialEq, Eq, Error)]
pub enum PutErr {
    /// The shelf failed. Its counts of faults rose.
    #[error(transparent)]
    Failed(FaultKind),
    /// Memory was refused.
    #[error("out of memory")]
    NoMemory,
}

/// Why a piece is not appended to the text of a sink.
#[derive(Clone, Copy, Debug, PartialEq, Eq, Error)]
pub enum SinkFault {
    /// The sink failed. Its count of faults rose.
    #[error(transparent)]
    Failed(FaultKind),
    /// Memory was refused.
    #[error("out of memory")]
    NoMemory,
}

impl From<NoMemory> for LoadErr {
    ghost use Rattle.io_ports.specs.declared.errors.LoadErr.TheVariants as load;

    ghost from_gives = { λ _ e. e ≡ load.NoMemory };

    fn from(_error: NoMemory) -> LoadErr {
        LoadErr::NoMemory
    }
}

impl From<AllocError> for LoadErr {
    ghost use Rattle.io_ports.specs.declared.errors.LoadErr.TheVariants as load;

    ghost from_gives = { λ _ e. e ≡ load.NoMemory };

    fn from(_error: AllocError) -> LoadErr {
        LoadErr::NoMemory
    }
}

impl From<AllocError> for PutErr {
    ghost use Rattle.io_ports.specs.declared.errors.PutErr.TheVariants as put;

    ghost from_gives = { λ _ e. e ≡ put.NoMemory };

    fn from(_error: AllocError) -> PutErr {
        PutErr::NoMemory
    }
}

impl From<NoMemory> for PutErr {
    ghost use Rattle.io_ports.specs.declared.errors.PutErr.TheVariants as put;

    ghost from_gives = { λ _ e. e ≡ put.NoMemory };

    fn from(_error: NoMemory) -> PutErr {
        PutErr::NoMemory
    }
}

impl From<NoMemory> for SinkFault {
    ghost use Rattle.io_ports.specs.declared.errors.SinkFault.TheVariants as sink;

    ghost from_gives = { λ _ e. e ≡ sink.NoMemory };

    fn from(_error: NoMemory) -> SinkFault {
        SinkFault::NoMemory
    }
}
