//! The report that a text is.

ghost use Rattle.std.specs.Prelude.{IfOk};
ghost use Rattle.serde_json.specs.View.{view};
ghost use Rattle.report_doc.specs.declared.types.Report.{Report as SpecReport};
ghost use Rattle.report_doc.specs.Errors.{OnShape, OnSyntax};
ghost use Rattle.report_doc.specs.Json.{IsJson, IsJsonOf};
ghost use Rattle.report_doc.specs.Shape.{CanBeWritten};
ghost use Rattle.report_reading.specs.Reading.{IsReportOf};

use crate::from_json::FromJson;
use report_doc::types::{Report, ReportErr};
use serde_json::Value;
use std::alloc::Global;

/// The JSON value that the text is.
fn json_in(alloc: Global, text: &[u8]) -> Result<Value, ReportErr>
    ensures json { IfOk result (λ value. IsJsonOf (view value) text.now) }
    ensures syntax { OnSyntax result (¬ IsJson text.now) }
    ensures no_shape { OnShape result ⊥ }
{
    match Value::from_slice(alloc, text) {
        Ok(value) => Ok(value),
        Err(error) if error.is_memory() => Err(ReportErr::NoMemory),
        Err(_) => Err(ReportErr::Syntax),
    }
}

/// The report that a text is. `Syntax` where the text isn't JSON, as `serde_json` reads it: its lists and objects nest at most 127
/// deep, and of members with one name the last counts. `Shape` where it is JSON of another shape.
pub fn read_report(alloc: Global, text: &[u8]) -> Result<Report, ReportErr>
    ensures report { IfOk result (λ report. IsReportOf text.now report) }
    ensures can_be_written { IfOk result CanBeWritten }
    ensures syntax { OnSyntax result (¬ IsJson text.now) }
    ensures json { OnShape result (IsJson text.now) }
    ensures shape { OnShape result ((report : SpecReport) → ¬ IsReportOf text.now report) }
{
    let value = json_in(alloc, text)?;
    FromJson::read(alloc, &value)
}
