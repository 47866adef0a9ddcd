//! Why a listing stops before its end.
ghost use Rattle.std.specs.Prelude.{◌≡◌};

use write_order::WriteErr;

/// Why a listing stopped.
#[derive(Clone, Copy, Debug, PartialEq, Eq)]
pub(crate) enum Stop {
    /// The shelf or the sink failed.
    Failed,
    /// Memory was refused: behind so many sets that are printed, or before the log was begun.
    Memory(Option<usize>),
}

ghost use Rattle.list_writer.specs.Stops.{stopped};

/// What writes come to behind so many sets that are printed.
pub(crate) fn stopped(written: Result<(), WriteErr>, sets: Option<usize>) -> Result<(), Stop>
    ensures { result ≡ stopped written sets }
{
    match written {
        Ok(()) => Ok(()),
        Err(WriteErr::Failed) => Err(Stop::Failed),
        Err(WriteErr::NoMemory) => Err(Stop::Memory(sets)),
    }
}
