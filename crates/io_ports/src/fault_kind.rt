use std::io;
use std::io::ErrorKind;
use thiserror::Error;

/// Why a call failed, by the kinds that a user meets: all but `InUse` as the system says. No clause speaks of it.
#[derive(Clone, Copy, Debug, PartialEq, Eq, Error)]
pub enum FaultKind {
    /// No file has the name, or a folder on the way to it is missing.
    #[error("there is no such file or folder")]
    NotFound,
    /// The user may not do that.
    #[error("permission is denied")]
    PermissionDenied,
    /// The name is a folder's.
    #[error("it is a folder")]
    IsFolder,
    /// The disk is full, or the user's share of it.
    #[error("no space is left")]
    NoSpace,
    /// Who read the output has closed it.
    #[error("the reader of the output has closed it")]
    BrokenPipe,
    /// This run read the file or wrote it, and the name is another one.
    #[error("it is a file that this run reads or writes under another name")]
    InUse,
    /// Any other, and each fault of a shelf or a sink in memory.
    #[error("it failed for another reason")]
    Other,
}

impl From<ErrorKind> for FaultKind {
    fn from(kind: ErrorKind) -> FaultKind {
        match kind {
            ErrorKind::NotFound | ErrorKind::NotADirectory => FaultKind::NotFound,
            ErrorKind::PermissionDenied => FaultKind::PermissionDenied,
            ErrorKind::IsADirectory => FaultKind::IsFolder,
            ErrorKind::StorageFull | ErrorKind::QuotaExceeded => FaultKind::NoSpace,
            ErrorKind::BrokenPipe => FaultKind::BrokenPipe,
            _ => FaultKind::Other,
        }
    }
}

impl From<io::Error> for FaultKind {
    fn from(error: io::Error) -> FaultKind {
        FaultKind::from(error.kind())
    }
}
