use loc_base::NoMemory;
use std::alloc::{AllocError, AllocFailed};
use thiserror::Error;

/// Why there is no network, trace, word or name.
#[derive(Clone, Copy, Debug, PartialEq, Eq, Error)]
pub enum NetworkErr {
    /// What is written down is none.
    #[error("what is written down is no network, trace, word or name")]
    Unfit,
    /// Memory was refused.
    #[error("out of memory")]
    NoMemory,
}

impl From<NoMemory> for NetworkErr {
    fn from(_error: NoMemory) -> NetworkErr {
        NetworkErr::NoMemory
    }
}

impl From<AllocError> for NetworkErr {
    fn from(_error: AllocError) -> NetworkErr {
        NetworkErr::NoMemory
    }
}

impl<T: Drop> From<AllocFailed<T>> for NetworkErr {
    fn from(_failed: AllocFailed<T>) -> NetworkErr {
        NetworkErr::NoMemory
    }
}
