ghost use Rattle.std.specs.Prelude.{◌≡◌};

use gate_base::MakeErr;
use loc_base::NoMemory as WantOfMemory;
use std::alloc::AllocFailed;
use thiserror::Error;

/// Why a net has no circuit: it would have too many AND and free nodes, or want of memory.
#[derive(Clone, Copy, Debug, PartialEq, Eq, Error)]
pub enum BlastErr {
    #[error("more AND and free nodes of the circuit than are allowed")]
    Nodes,
    #[error("out of memory")]
    NoMemory,
}

impl From<MakeErr> for BlastErr {
    ghost use Rattle.bit_circuit.specs.Limits.{blast_err};

    ghost from_gives = { λ cause e. e ≡ blast_err cause };

    fn from(cause: MakeErr) -> BlastErr {
        match cause {
            MakeErr::Limit => BlastErr::Nodes,
            MakeErr::NoMemory => BlastErr::NoMemory,
        }
    }
}

impl From<WantOfMemory> for BlastErr {
    ghost use Rattle.bit_circuit.specs.declared.error.BlastErr.TheVariants as cause;

    ghost from_gives = { λ _ e. e ≡ cause.NoMemory };

    fn from(_error: WantOfMemory) -> BlastErr {
        BlastErr::NoMemory
    }
}

impl<T: Drop> From<AllocFailed<T>> for BlastErr {
    ghost use Rattle.bit_circuit.specs.declared.error.BlastErr.TheVariants as cause;

    ghost from_gives = { λ _ e. e ≡ cause.NoMemory };

    fn from(_failed: AllocFailed<T>) -> BlastErr {
        BlastErr::NoMemory
    }
}
