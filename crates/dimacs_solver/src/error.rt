//! What can go wrong before there is an answer.

use loc_base::NoMemory;
use std::alloc::{AllocError, AllocFailed, Global};
use std::io;
use thiserror::Error;

/// Why a text isn't a formula in DIMACS CNF. Lines are counted from 1.
#[derive(Clone, Copy, Debug, PartialEq, Eq, Error)]
pub enum FormErr {
    /// The text isn't UTF-8.
    #[error("no text")]
    NotText,
    /// No line `p cnf VARS CLAUSES` stands before the first clause.
    #[error("no problem line")]
    NoProblem,
    /// A line that begins with `p` isn't the first one, isn't `p cnf VARS CLAUSES`, or has too many variables.
    #[error("bad problem line {line}")]
    BadProblem { line: u64 },
    /// A word isn't a number of 32 bits.
    #[error("bad word in line {line}")]
    BadWord { line: u64 },
    /// A literal's variable is greater than the problem line's number of variables.
    #[error("variable out of range in line {line}")]
    OutOfRange { line: u64 },
    /// No 0 ends the last clause.
    #[error("last clause without an end")]
    Unended,
    /// There are more or fewer clauses than the problem line says.
    #[error("wrong number of clauses")]
    WrongCount,
    /// There are more clauses than a solver takes.
    #[error("too many clauses")]
    TooMany,
    /// Memory was refused.
    #[error("out of memory")]
    NoMemory,
}

impl From<NoMemory> for FormErr {
    fn from(_want: NoMemory) -> FormErr {
        FormErr::NoMemory
    }
}

impl<T: Drop> From<AllocFailed<T>> for FormErr {
    fn from(_failed: AllocFailed<T>) -> FormErr {
        FormErr::NoMemory
    }
}

/// Why the program has no answer.
#[derive(Clone, Copy, Debug, PartialEq, Eq, Error)]
pub enum Failure {
    /// The words behind the program's name aren't `[BUDGET] [--times]`.
    #[error("usage: bench_tool solve [BUDGET] [--times]")]
    Usage,
    /// Standard input can't be read.
    #[error("unreadable input")]
    Input,
    /// Standard input holds no formula.
    #[error(transparent)]
    Form(FormErr),
    /// Standard output, standard error or the clock failed.
    #[error("failed output")]
    Output,
    /// Memory was refused.
    #[error("out of memory")]
    NoMemory,
}

impl From<FormErr> for Failure {
    fn from(error: FormErr) -> Failure {
        match error {
            FormErr::NoMemory => Failure::NoMemory,
            other => Failure::Form(other),
        }
    }
}

impl From<NoMemory> for Failure {
    fn from(_want: NoMemory) -> Failure {
        Failure::NoMemory
    }
}

impl From<AllocError> for Failure {
    fn from(_error: AllocError) -> Failure {
        Failure::NoMemory
    }
}

impl<T: Drop> From<AllocFailed<T>> for Failure {
    fn from(_failed: AllocFailed<T>) -> Failure {
        Failure::NoMemory
    }
}

impl From<io::Error> for Failure {
    fn from(_error: io::Error) -> Failure {
        Failure::Output
    }
}

/// The line that names a failure.
pub fn failure_text(alloc: Global, failure: Failure) -> Result<String, AllocError> {
    format!(in alloc; "{failure}\n")
}

/// The exit status of a failure: 2 for words and texts that ask for nothing, 6 for input and output, 7 for want of memory.
pub fn failure_status(failure: Failure) -> u8 {
    match failure {
        Failure::Usage | Failure::Form(_) => 2,
        Failure::Input | Failure::Output => 6,
        Failure::NoMemory => 7,
    }
}
