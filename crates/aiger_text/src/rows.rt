//! The rows of a text.
ghost use Rattle.std.specs.Prelude.{◌≡◌, ◌≤◌, None, Some, drop, length, IfOk, IfErr, IfNone, IfSome};
ghost use Rattle.aiger_text.specs.Lines.{lines};
ghost use Rattle.aiger_text.specs.Rows.{first_row, row_count};
ghost use Rattle.aiger_text.specs.Content.{HasRows};
ghost use Rattle.aiger_text.specs.Outcomes.{RowsEnd};

use crate::cut::cut_at;
use crate::fault::AigerErr;
use crate::numbers::read_numbers;
use crate::row::{Counts, Row, Section, row_of};
use loc_base::NoMemory;
use std::alloc::Global;

/// A row, and the text behind its line.
#[derive(Clone, Copy)]
struct RowRead<'t> {
    row: Row,
    rest: &'t [u8],
}

/// Rows, and the text behind their lines.
#[derive(Drop)]
pub(crate) struct RowsRead<'t> {
    pub rows: Vec<Row>,
    pub rest: &'t [u8],
}

/// The row that the first line of a text is.
#[tactic(auto, using(crate::proofs::LineSteps::line_steps))]
fn read_row<'t>(
    text: &'t [u8],
    section: Section,
    numbers: &mut Vec<u32>,
) -> Result<Option<RowRead<'t>>, NoMemory>
    ensures none { IfOk result (λ read. IfNone read (first_row section (lines text.entry.now) ≡ None)) }
    ensures some { IfOk result (λ read. IfSome read (λ r. first_row section (lines text.entry.now) ≡ Some r.row)) }
    ensures behind { IfOk result (λ read. IfSome read (λ r. drop 1 (lines text.entry.now) ≡ lines r.rest.now)) }
    ensures shorter { IfOk result (λ read. IfSome read (λ r. length r.rest.now ≤ length text.entry.now)) }
{
    let Some(cut) = cut_at(text, b'\n') else {
        return Ok(None);
    };
    if !read_numbers(cut.front, numbers)? {
        return Ok(None);
    }
    match row_of(section, numbers) {
        Some(row) => Ok(Some(RowRead {
            row,
            rest: cut.back,
        })),
        None => Ok(None),
    }
}

/// The rows that stand at the front of the text behind the header.
#[tactic(auto, using(crate::proofs::RowSteps::row_steps))]
pub(crate) fn read_rows<'t>(
    alloc: Global,
    text: &'t [u8],
    counts: Counts,
) -> Result<RowsRead<'t>, AigerErr>
    ensures rows { IfOk result (λ read. HasRows (lines text.entry.now) counts read.rows.items) }
    ensures behind { IfOk result (λ read. drop (row_count counts) (lines text.entry.now) ≡ lines read.rest.now) }
    ensures shorter { IfOk result (λ read. length read.rest.now ≤ length text.entry.now) }
    ensures lacking { IfErr result (RowsEnd (lines text.entry.now) counts) }
{
    let mut numbers = Vec::new(alloc);
    let mut rows = Vec::new(alloc);
    let mut rest = text;
    for number in 0..counts.rows() {
        match read_row(rest, counts.section(number), &mut numbers)? {
            Some(read) => {
                rows.push(read.row)?;
                rest = read.rest;
            }
            None => return Err(AigerErr::Shape(number + 2)),
        }
    }
    Ok(RowsRead { rows, rest })
}
