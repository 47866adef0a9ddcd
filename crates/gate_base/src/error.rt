ghost use Rattle.std.specs.Prelude.{◌≡◌};

use loc_base::NoMemory as WantOfMemory;
use std::alloc::AllocFailed;
use thiserror::Error;

/// Why no node was made: the limit on AND and free nodes would be passed, or want of memory.
#[derive(Clone, Copy, Debug, PartialEq, Eq, Error)]
pub enum MakeErr {
    #[error("more AND and free nodes than are allowed")]
    Limit,
    #[error("out of memory")]
    NoMemory,
}

impl From<WantOfMemory> for MakeErr {
    ghost use Rattle.gate_base.specs.declared.error.MakeErr.TheVariants as cause;

    ghost from_gives = { λ _ e. e ≡ cause.NoMemory };

    fn from(_error: WantOfMemory) -> MakeErr {
        MakeErr::NoMemory
    }
}

impl<T: Drop> From<AllocFailed<T>> for MakeErr {
    ghost use Rattle.gate_base.specs.declared.error.MakeErr.TheVariants as cause;

    ghost from_gives = { λ _ e. e ≡ cause.NoMemory };

    fn from(_failed: AllocFailed<T>) -> MakeErr {
        MakeErr::NoMemory
    }
}
