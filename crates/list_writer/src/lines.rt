//! The last line of a listing.
ghost use Rattle.std.specs.Prelude.{◌≡◌, ◌++◌, IfOk, OnOk, codes, decimal};
ghost use Rattle.printed_text.specs.Numerals.{newline};
ghost use Rattle.report_doc.specs.declared.types.Ending.TheVariants as ending;
ghost use Rattle.list_writer.specs.Lines.{ending_line, ending_status, front_line, memory_line};

use loc_base::NoMemory;
use printed_text::{push_bytes, push_number};
use report_doc::types::Ending;
use std::alloc::Global;

/// The line that says why a list has no more than so many sets.
fn front_line(alloc: Global, count: usize, why: &[u8]) -> Result<Vec<u8>, NoMemory>
    ensures { IfOk result (λ line. line.items ≡ front_line count why.now) }
{
    let mut line = Vec::new(alloc);
    push_bytes(&mut line, b"front ")?;
    push_number(&mut line, count as u64)?;
    push_bytes(&mut line, b" ")?;
    push_bytes(&mut line, why)?;
    push_bytes(&mut line, b"\n")?;
    Ok(line)
}

/// The line of a whole list.
fn complete_line(alloc: Global, count: usize) -> Result<Vec<u8>, NoMemory>
    ensures { IfOk result (λ line. line.items ≡ ending_line ending.Complete count) }
{
    let mut line = Vec::new(alloc);
    push_bytes(&mut line, b"complete ")?;
    push_number(&mut line, count as u64)?;
    push_bytes(&mut line, b"\n")?;
    Ok(line)
}

/// The line of an ending, with the number of sets.
pub(crate) fn ending_line(alloc: Global, ending: Ending, count: usize) -> Result<Vec<u8>, NoMemory>
    ensures { IfOk result (λ line. line.items ≡ ending_line ending count) }
{
    match ending {
        Ending::Complete => complete_line(alloc, count),
        Ending::Budget => front_line(alloc, count, b"budget"),
        Ending::Sets => front_line(alloc, count, b"sets"),
        Ending::Earlier => front_line(alloc, count, b"earlier"),
    }
}

/// The status of the program for an ending.
pub(crate) fn ending_status(ending: Ending) -> u8
    ensures { result ≡ ending_status ending }
{
    match ending {
        Ending::Complete => 0,
        Ending::Budget | Ending::Sets | Ending::Earlier => 1,
    }
}

/// The line where memory was wanted: behind so many sets that are printed, or before the log was begun.
pub(crate) fn memory_line(alloc: Global, sets: Option<usize>) -> Result<Vec<u8>, NoMemory>
    ensures { IfOk result (λ line. line.items ≡ memory_line sets) }
{
    match sets {
        Some(count) => front_line(alloc, count, b"memory"),
        None => {
            let mut line = Vec::new(alloc);
            push_bytes(&mut line, b"memory\n")?;
            Ok(line)
        }
    }
}
