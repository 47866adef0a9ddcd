//! The values of a set, in hex digits.

ghost use Rattle.std.specs.Prelude.{◌↔◌, All, IsTrue};
ghost use Rattle.serde_json.specs.Data.{string};
ghost use Rattle.report_doc.specs.Document.{trace_data};
ghost use Rattle.report_doc.specs.Json.{list_data};
ghost use Rattle.report_doc.specs.Shape.{AreValues, IsHexDigit, IsHexText};

use crate::from_json::{FromJson, list_in, text_in};
use loc_base::Rows;
use report_doc::CycleTexts;
use report_doc::types::ReportErr;
use serde_json::Value;
use std::alloc::Global;

fn is_hex_digit(byte: u8) -> bool
    ensures { IsTrue result ↔ IsHexDigit byte }
{
    (48 <= byte && byte <= 57) || (97 <= byte && byte <= 102)
}

/// Whether a text has 1 to 32 lower-case hex digits.
fn is_hex_text(text: &[u8]) -> bool
    ensures { IsTrue result ↔ IsHexText text.now }
{
    1 <= text.len() && text.len() <= 32 && text.iter().all(|&byte| is_hex_digit(byte))
}

/// The values of a cycle.
impl FromJson for Rows<u8> {
    ghost holds = { All IsHexText };

    ghost written = { list_data string };

    fn read(alloc: Global, value: &Value) -> Result<Rows<u8>, ReportErr> {
        let elements = list_in(value)?;
        let mut found = Rows::new(alloc);
        for element in elements {
            let text = text_in(element)?;
            if !is_hex_text(text) {
                return Err(ReportErr::Shape);
            }
            found.push(text)?;
        }
        Ok(found)
    }
}

/// The values of a trace.
impl FromJson for CycleTexts {
    ghost holds = { AreValues };

    ghost written = { trace_data };

    fn read(alloc: Global, value: &Value) -> Result<CycleTexts, ReportErr> {
        let elements = list_in(value)?;
        let mut found = CycleTexts::new(alloc);
        for element in elements {
            let cycle: Rows<u8> = FromJson::read(alloc, element)?;
            found = found.with(&cycle)?;
        }
        Ok(found)
    }
}
