//! The kinds of a report.

ghost use Rattle.std.specs.Prelude.{◌≢◌, ◌↔◌, All, AllPairs, IfOk, IsTrue};
ghost use Rattle.serde_json.specs.Data.{string};
ghost use Rattle.loc_base.specs.Name.{IsName};
ghost use Rattle.report_doc.specs.Json.{list_data};
ghost use Rattle.report_doc.specs.Shape.{AreKinds};
ghost use Rattle.report_reading.specs.Reading.{IsKindByte, IsKindName};

use crate::from_json::FromJson;
use loc_base::{Items, Name, NameTable, NoMemory};
use report_doc::types::ReportErr;
use serde_json::Value;
use std::alloc::Global;

fn is_kind_byte(byte: u8) -> bool
    ensures { IsTrue result ↔ IsKindByte byte }
{
    (97 <= byte && byte <= 122) || (48 <= byte && byte <= 57) || byte == 95
}

/// Whether a name is that of a kind: 1 to 32 small letters, digits and `_`.
fn is_kind_name(name: &[u8]) -> bool
    ensures { IsTrue result ↔ IsKindName name.now }
{
    1 <= name.len() && name.len() <= 32 && name.iter().all(|&byte| is_kind_byte(byte))
}

/// Whether each name stands once.
fn are_once(alloc: Global, names: &[Name]) -> Result<bool, NoMemory>
    ensures { IfOk result (λ once. IsTrue once ↔ AllPairs (λ one other. one ≢ other) names.now) }
{
    let mut seen = NameTable::new(alloc);
    for name in names {
        if !seen.add(name.as_bytes(), 0)? {
            return Ok(false);
        }
    }
    Ok(true)
}

/// Whether names can be the kinds of a report: they are names of kinds, there are some, and each stands once.
fn are_kinds(alloc: Global, names: &[Name]) -> Result<bool, NoMemory>
    ensures { IfOk result (λ yes. IsTrue yes ↔ (All IsKindName names.now × AreKinds names.now)) }
{
    if names.is_empty() || !names.iter().all(|name| is_kind_name(name.as_bytes())) {
        return Ok(false);
    }
    are_once(alloc, names)
}

/// The kinds of a report.
#[derive(Drop)]
pub(crate) struct Kinds(pub(crate) Items<Name>);

impl FromJson for Kinds {
    ghost holds = { λ kinds. All IsName kinds.0 × All IsKindName kinds.0 × AreKinds kinds.0 };

    ghost written = { λ kinds. list_data string kinds.0 };

    fn read(alloc: Global, value: &Value) -> Result<Kinds, ReportErr> {
        let names: Items<Name> = FromJson::read(alloc, value)?;
        if are_kinds(alloc, names.as_slice())? {
            Ok(Kinds(names))
        } else {
            Err(ReportErr::Shape)
        }
    }
}
