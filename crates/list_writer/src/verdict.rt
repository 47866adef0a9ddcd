//! What a listing ends by. One that is said to be whole needs its log checked, and only the check here makes what says so.
ghost use Rattle.std.specs.Prelude.{◌+◌, ◌<◌, ◌^◌, ◌↔◌, IfOk, IfSome, IsSome, length};
ghost use Rattle.clause_base.specs.Acceptance.{IsAccepted};
ghost use Rattle.clause_base.specs.Literal.{AreWithin};
ghost use Rattle.list_writer.specs.Checks.{IsCheckOf};
ghost use Rattle.list_writer.specs.Jobs.{IsUpTo};

use crate::search::Search;
use clause_base::{Clause, Form, Log};
use loc_base::{Gate, NoMemory, Workers};
use proof_check::{Claim, check_log_parallel};
use report_doc::types::Ending;
use std::alloc::Global;
use std::thread::Threads;

/// A log that was checked, after a form, and is accepted. No other file can make one.
#[derive(Clone, Copy)]
pub(crate) struct Checked<'a> {
    form: &'a Form,
    log: &'a Log,
}

/// How a listing ends, with its checked log where it is whole.
#[derive(Clone, Copy)]
pub(crate) struct Verdict<'a> {
    pub(crate) ending: Ending,
    pub(crate) checked: Option<Checked<'a>>,
}

/// Checks the log of a search, after its form, with blocks, by so many workers. Whether it is accepted isn't known before.
pub(crate) fn check_search<'a, R: Threads + Sync, G: Gate + Sync, D: Search>(
    alloc: Global,
    workers: &Workers<R, G>,
    search: &'a D,
    blocks: &[Clause],
) -> Result<Option<Checked<'a>>, NoMemory>
    requires workers { IsUpTo 64 workers.now.count }
    requires form_within { AreWithin (D.state search.now).vars (D.state search.now).form }
    requires blocks_within { AreWithin (D.state search.now).vars blocks.now }
    requires few { length (D.state search.now).log + 1 < 2 ^ 32 }
    ensures accepted { IfOk result (λ found. IsSome found ↔ IsAccepted (D.state search.now).form blocks.now (D.state search.now).log) }
    ensures its { IfOk result (λ found. IfSome found (IsCheckOf (D.state search.now).form (D.state search.now).log)) }
{
    let claim = Claim {
        form: search.form(),
        blocks,
        log: search.log(),
    };
    match check_log_parallel(alloc, workers, &claim)? {
        None => Ok(Some(Checked {
            form: search.form(),
            log: search.log(),
        })),
        Some(_) => Ok(None),
    }
}
