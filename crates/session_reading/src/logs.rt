//! The log of a text.
ghost use Rattle.std.specs.Prelude.{◌≡◌, ◌+◌, ◌<◌, ◌≤◌, ◌^◌, IfErr, IfOk, length, true};
ghost use Rattle.proof_check.specs.declared.types.LogText.{LogText as SomeLog};
ghost use Rattle.proof_check.specs.Text.{IsLogText};
ghost use Rattle.load_texts.specs.Means.{most_bytes};
ghost use Rattle.refusal.specs.Ends.{CountsOf, HasCause, HasStatus, IsMemory, IsSpared, Says};
ghost use Rattle.session_reading.specs.Parts.{LogTextRefused, log_fault_line, log_fault_status};
ghost use Rattle.session_reading.specs.Refusals.{LogRefused};
ghost use Rattle.session_reading.specs.Texts.{IsLogIn, IsLogOf};

use crate::texts::{NamedText, load};
use io_ports::Shelf;
use loc_base::{Gate, Workers};
use proof_check::read_log_parallel;
use proof_check::types::{LogErr, LogText};
use refusal::{Code, LastLine, Notes};
use std::alloc::Global;
use std::thread::Threads;

/// Why a text is no log's. It is told, but for want of memory.
fn refused<N: Notes>(alloc: Global, text: &NamedText<'_>, fault: LogErr, notes: &mut N) -> LastLine
    ensures says { Says result (log_fault_status fault) (log_fault_line fault) }
    ensures status { HasStatus result }
{
    match fault {
        LogErr::LogSyntax { line } => text.refuse(alloc, Code::Line("G1", line), &fault, notes),
        LogErr::NoMemory => LastLine::Memory,
    }
}

/// The log that a text is, read by so many workers.
fn log_in<R: Threads + Sync, G: Gate + Sync, N: Notes>(
    alloc: Global,
    workers: &Workers<'_, R, G>,
    text: &NamedText<'_>,
    notes: &mut N,
) -> Result<LogText, LastLine>
    requires some { 0 < workers.now.count }
    requires short { length text.now.bytes.now ≤ most_bytes }
    ensures means { IfOk result (IsLogOf text.now.bytes.now) }
    ensures few { IfOk result (λ log. length log.log + 1 < 2 ^ 32) }
    ensures refused { IfErr result (HasCause (LogTextRefused text.now.bytes.now)) }
    ensures only { (log : SomeLog) → IsLogOf text.now.bytes.now log → IfErr result IsMemory }
{
    match read_log_parallel(workers.runtime, alloc, text.bytes.as_slice(), workers.count) {
        Ok(log) => Ok(log),
        Err(fault) => Err(refused(alloc, text, fault, notes)),
    }
}

/// The log of the text under its name, read by so many workers. Why there is none is told, but for want of memory.
pub fn load_log<R: Threads + Sync, G: Gate + Sync, S: Shelf, N: Notes>(
    alloc: Global,
    workers: &Workers<'_, R, G>,
    name: &str,
    shelf: &mut S,
    notes: &mut N,
) -> Result<LogText, LastLine>
    requires { 0 < workers.now.count }
    ensures tells { S.tells shelf.new ≡ S.tells shelf.old }
    ensures texts { S.texts shelf.new ≡ S.texts shelf.old }
    ensures written { S.written shelf.new ≡ S.written shelf.old }
    ensures counts { CountsOf (S.faults shelf.old) (S.faults shelf.new) result }
    ensures status { IfErr result HasStatus }
    ensures log { IfOk result IsLogText }
    ensures few { IfOk result (λ log. length log.log + 1 < 2 ^ 32) }
    ensures means { S.tells shelf.old ≡ true → IfOk result (IsLogIn (S.texts shelf.old name.now)) }
    ensures refused { S.tells shelf.old ≡ true → IfErr result (HasCause (LogRefused name.now (S.texts shelf.old name.now))) }
    ensures only { S.tells shelf.old ≡ true → (log : SomeLog) → IsLogIn (S.texts shelf.old name.now) log → IfErr result IsSpared }
{
    let text = load(alloc, name, shelf, notes)?;
    log_in(alloc, workers, &NamedText { name, bytes: &text }, notes)
}
