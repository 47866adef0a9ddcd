//! The report of a text.
ghost use Rattle.std.specs.Prelude.{◌≡◌, IfErr, IfOk, true};
ghost use Rattle.report_doc.specs.declared.types.Report.{Report as SomeReport};
ghost use Rattle.report_doc.specs.Shape.{IsReport};
ghost use Rattle.report_reading.specs.Reading.{IsReportOf};
ghost use Rattle.refusal.specs.Ends.{CountsOf, HasCause, HasStatus, IsMemory, IsSpared, Says};
ghost use Rattle.session_reading.specs.Parts.{ReportTextRefused, report_fault_line, report_fault_status};
ghost use Rattle.session_reading.specs.Refusals.{ReportRefused};
ghost use Rattle.session_reading.specs.Texts.{IsReportIn};

use crate::texts::{NamedText, load};
use io_ports::Shelf;
use refusal::{Code, LastLine, Notes};
use report_doc::types::{Report, ReportErr};
use report_reading::read_report;
use std::alloc::Global;

/// Why a text is no report's. It is told, but for want of memory.
fn refused<N: Notes>(
    alloc: Global,
    text: &NamedText<'_>,
    fault: ReportErr,
    notes: &mut N,
) -> LastLine
    ensures says { Says result (report_fault_status fault) (report_fault_line fault) }
    ensures status { HasStatus result }
{
    match fault {
        ReportErr::Syntax => text.refuse(alloc, Code::Bare("J1"), &fault, notes),
        ReportErr::Shape => text.refuse(alloc, Code::Bare("J2"), &fault, notes),
        ReportErr::NoMemory => LastLine::Memory,
    }
}

/// The report that a text is.
fn report_in<N: Notes>(
    alloc: Global,
    text: &NamedText<'_>,
    notes: &mut N,
) -> Result<Report, LastLine>
    ensures means { IfOk result (IsReportOf text.now.bytes.now) }
    ensures refused { IfErr result (HasCause (ReportTextRefused text.now.bytes.now)) }
    ensures only { (report : SomeReport) → IsReportOf text.now.bytes.now report → IfErr result IsMemory }
{
    match read_report(alloc, text.bytes.as_slice()) {
        Ok(report) => Ok(report),
        Err(fault) => Err(refused(alloc, text, fault, notes)),
    }
}

/// The report of the text under its name. Why there is none is told, but for want of memory.
pub fn load_report<S: Shelf, N: Notes>(
    alloc: Global,
    name: &str,
    shelf: &mut S,
    notes: &mut N,
) -> Result<Report, LastLine>
    ensures tells { S.tells shelf.new ≡ S.tells shelf.old }
    ensures texts { S.texts shelf.new ≡ S.texts shelf.old }
    ensures written { S.written shelf.new ≡ S.written shelf.old }
    ensures counts { CountsOf (S.faults shelf.old) (S.faults shelf.new) result }
    ensures status { IfErr result HasStatus }
    ensures report { IfOk result IsReport }
    ensures means { S.tells shelf.old ≡ true → IfOk result (IsReportIn (S.texts shelf.old name.now)) }
    ensures refused { S.tells shelf.old ≡ true → IfErr result (HasCause (ReportRefused name.now (S.texts shelf.old name.now))) }
    ensures only { S.tells shelf.old ≡ true → (report : SomeReport) → IsReportIn (S.texts shelf.old name.now) report → IfErr result IsSpared }
{
    let text = load(alloc, name, shelf, notes)?;
    report_in(alloc, &NamedText { name, bytes: &text }, notes)
}
