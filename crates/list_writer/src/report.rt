//! The report of the sets that were found, with their values.
ghost use Rattle.std.specs.Prelude.{◌≡◌, IfOk, OnOk};
ghost use Rattle.report_doc.specs.Shape.{IsReport};
ghost use Rattle.list_writer.specs.Jobs.{asked_of};
ghost use Rattle.list_writer.specs.Reporting.{CanBeReported};
ghost use Rattle.list_writer.specs.Texts.{report_for, report_of};

use crate::job::Job;
use design_core::SetWithValues;
use loc_base::{Bytes, NoMemory};
use report_doc::report_text;
use report_doc::types::Ending;
use report_sets::{Findings, report_of};
use std::alloc::Global;

/// The text of the report of the sets that were found.
pub(crate) fn text_of_report(
    alloc: Global,
    job: &Job,
    found: &[SetWithValues],
    ending: Ending,
) -> Result<Bytes, NoMemory>
    requires { CanBeReported (asked_of job.now) found.now }
    ensures text { IfOk result (λ text. text ≡ report_of (asked_of job.now) found.now ending) }
    ensures report { OnOk result (IsReport (report_for (asked_of job.now) found.now ending)) }
{
    let question = &job.question;
    let findings = Findings {
        clock: job.clock,
        ending,
        inputs: job.inputs,
        kinds: job.kinds,
        traces: question.traces,
        sets: found,
        size: question.k,
        groups: question.groups,
        places: question.design.places.as_slice(),
        top: job.top,
    };
    let report = report_of(alloc, &findings)?;
    report_text(alloc, &report)
}
