//! Why a part of the product had no answer.
use bit_circuit::BlastErr;
use clause_form::FormErr;
use io_ports::LoadErr;
use loc_base::NoMemory;
use refusal::Refusal;
use std::alloc::{AllocError, AllocFailed};
use std::io;
use suspect_map::ChooseErr;
use thiserror::Error;
use unroller::UnrollErr;
use vcd_traces::VcdErr;

#[derive(Debug, Drop, Error)]
pub(crate) enum Failure {
    /// The words behind the program's name aren't of its form.
    #[error("usage: bench_tool form|solve|size|dump WORD..")]
    Words,
    /// Standard input has no expression.
    #[error("standard input has no expression")]
    Text,
    /// A text can't be read.
    #[error(transparent)]
    Load(#[from] LoadErr),
    /// The design's text means none.
    #[error(transparent)]
    Design(#[from] Refusal),
    /// The names of kinds give no suspects.
    #[error(transparent)]
    Kinds(#[from] ChooseErr),
    /// A dump holds no trace of the design.
    #[error(transparent)]
    Trace(#[from] VcdErr),
    /// The circuit has too many nodes.
    #[error(transparent)]
    Circuit(#[from] BlastErr),
    /// The form has too many variables.
    #[error(transparent)]
    Variables(#[from] UnrollErr),
    /// The clauses have too many literals.
    #[error(transparent)]
    Literals(#[from] FormErr),
    /// A number is larger than those below it allow.
    #[error("a number is too large")]
    Large,
    /// Standard input, standard output or the clock failed.
    #[error(transparent)]
    Stream(#[from] io::Error),
    /// Memory was refused.
    #[error("out of memory")]
    NoMemory,
}

impl From<NoMemory> for Failure {
    fn from(_want: NoMemory) -> Failure {
        Failure::NoMemory
    }
}

impl From<AllocError> for Failure {
    fn from(_error: AllocError) -> Failure {
        Failure::NoMemory
    }
}

impl<T: Drop> From<AllocFailed<T>> for Failure {
    fn from(_failed: AllocFailed<T>) -> Failure {
        Failure::NoMemory
    }
}
