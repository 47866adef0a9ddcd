//! The names of checkpoints: two pairs, in turn.
ghost use Rattle.std.specs.Prelude.{◌≡◌, IfOk, string_bytes};
ghost use Rattle.list_writer.specs.CheckpointNames.{log_name, other, report_name};

use loc_base::NoMemory;
use std::alloc::Global;

/// Which pair of names a checkpoint has.
#[derive(Clone, Copy, Debug, PartialEq, Eq)]
pub(crate) enum Pair {
    First,
    Second,
}

impl Pair {
    /// The pair of the next checkpoint.
    pub(crate) fn other(self) -> Pair
        ensures { result ≡ other self }
    {
        match self {
            Pair::First => Pair::Second,
            Pair::Second => Pair::First,
        }
    }
}

/// The names of a checkpoint's log and report.
#[derive(Drop)]
pub(crate) struct PairNames {
    pub(crate) log: String,
    pub(crate) report: String,
}

/// The names of a pair: `P-1.log` and `P-1.json` for the prefix P, or `P-2.log` and `P-2.json`.
pub(crate) fn names_of(alloc: Global, prefix: &str, pair: Pair) -> Result<PairNames, NoMemory>
    ensures log { IfOk result (λ names. string_bytes names.log ≡ log_name prefix.now pair) }
    ensures report { IfOk result (λ names. string_bytes names.report ≡ report_name prefix.now pair) }
{
    match pair {
        Pair::First => Ok(PairNames {
            log: format!(in alloc; "{prefix}-1.log")?,
            report: format!(in alloc; "{prefix}-1.json")?,
        }),
        Pair::Second => Ok(PairNames {
            log: format!(in alloc; "{prefix}-2.log")?,
            report: format!(in alloc; "{prefix}-2.json")?,
        }),
    }
}
