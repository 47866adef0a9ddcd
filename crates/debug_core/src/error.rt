ghost use Rattle.std.specs.Prelude.{◌≡◌};

use bit_circuit::BlastErr;
use clause_form::FormErr;
use loc_base::NoMemory as WantOfMemory;
use std::alloc::AllocFailed;
use thiserror::Error;
use unroller::UnrollErr;

/// Why there is no debugger: the circuit would have more than 4,000,000 AND and free nodes; else the form more than 4,000,000
/// variables; else its clauses more than 64,000,000 literals; or want of memory.
#[derive(Clone, Copy, Debug, PartialEq, Eq, Error)]
pub enum DebugErr {
    #[error("more than 4,000,000 AND and free nodes of the circuit")]
    Nodes,
    #[error("more than 4,000,000 variables of the clauses")]
    Vars,
    #[error("more than 64,000,000 literals of the clauses")]
    Literals,
    #[error("out of memory")]
    NoMemory,
}

impl From<BlastErr> for DebugErr {
    ghost use Rattle.debug_core.specs.Causes.{blast_cause};

    ghost from_gives = { λ cause e. e ≡ blast_cause cause };

    fn from(cause: BlastErr) -> DebugErr {
        match cause {
            BlastErr::Nodes => DebugErr::Nodes,
            BlastErr::NoMemory => DebugErr::NoMemory,
        }
    }
}

impl From<UnrollErr> for DebugErr {
    ghost use Rattle.debug_core.specs.Causes.{unroll_cause};

    ghost from_gives = { λ cause e. e ≡ unroll_cause cause };

    fn from(cause: UnrollErr) -> DebugErr {
        match cause {
            UnrollErr::Vars => DebugErr::Vars,
            UnrollErr::NoMemory => DebugErr::NoMemory,
        }
    }
}

impl From<FormErr> for DebugErr {
    ghost use Rattle.debug_core.specs.Causes.{form_cause};

    ghost from_gives = { λ cause e. e ≡ form_cause cause };

    fn from(cause: FormErr) -> DebugErr {
        match cause {
            FormErr::Literals => DebugErr::Literals,
            FormErr::NoMemory => DebugErr::NoMemory,
        }
    }
}

impl From<WantOfMemory> for DebugErr {
    ghost use Rattle.debug_core.specs.declared.error.DebugErr.TheVariants as cause;

    ghost from_gives = { λ _ e. e ≡ cause.NoMemory };

    fn from(_error: WantOfMemory) -> DebugErr {
        DebugErr::NoMemory
    }
}

impl<T: Drop> From<AllocFailed<T>> for DebugErr {
    ghost use Rattle.debug_core.specs.declared.error.DebugErr.TheVariants as cause;

    ghost from_gives = { λ _ e. e ≡ cause.NoMemory };

    fn from(_failed: AllocFailed<T>) -> DebugErr {
        DebugErr::NoMemory
    }
}
