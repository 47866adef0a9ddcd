ghost use Rattle.std.specs.Prelude.{◌≡◌};

use gate_base::MakeErr;
use loc_base::NoMemory as WantOfMemory;
use std::alloc::AllocFailed;
use thiserror::Error;

/// Why a circuit isn't unrolled: the form would have too many variables, or want of memory.
#[derive(Clone, Copy, Debug, PartialEq, Eq, Error)]
pub enum UnrollErr {
    #[error("more variables of the clauses than are allowed")]
    Vars,
    #[error("out of memory")]
    NoMemory,
}

impl From<MakeErr> for UnrollErr {
    ghost use Rattle.unroller.specs.Limits.{unroll_err};

    ghost from_gives = { λ cause e. e ≡ unroll_err cause };

    fn from(cause: MakeErr) -> UnrollErr {
        match cause {
            MakeErr::Limit => UnrollErr::Vars,
            MakeErr::NoMemory => UnrollErr::NoMemory,
        }
    }
}

impl From<WantOfMemory> for UnrollErr {
    ghost use Rattle.unroller.specs.declared.error.UnrollErr.TheVariants as cause;

    ghost from_gives = { λ _ e. e ≡ cause.NoMemory };

    fn from(_error: WantOfMemory) -> UnrollErr {
        UnrollErr::NoMemory
    }
}

impl<T: Drop> From<AllocFailed<T>> for UnrollErr {
    ghost use Rattle.unroller.specs.declared.error.UnrollErr.TheVariants as cause;

    ghost from_gives = { λ _ e. e ≡ cause.NoMemory };

    fn from(_failed: AllocFailed<T>) -> UnrollErr {
        UnrollErr::NoMemory
    }
}
