//! The line of a judgement, and its status.
ghost use Rattle.std.specs.Prelude.{◌≡◌, ◌++◌, IfOk, OnOk};
ghost use Rattle.printed_text.specs.Numerals.{newline};
ghost use Rattle.check_cmd.specs.Lines.{judgement_line, judgement_status, table_line, verdict_line, verdict_status};

use crate::table::TableFault;
use design_core::Design;
use list_session::{push_miss, push_pair, push_word};
use list_verdict::Verdict;
use loc_base::NoMemory;
use printed_text::push_bytes;
use std::alloc::Global;

/// What is judged of a report and its log.
#[derive(Clone, Copy, Debug)]
pub enum Judgement {
    /// Its top or a suspect is another than it is asked of.
    OfTable { fault: TableFault },
    /// Both are those, and this is judged of its list.
    OfList { verdict: Verdict },
}

/// The status of a verdict.
fn verdict_status(verdict: Verdict) -> u8
    ensures { result ≡ verdict_status verdict }
{
    match verdict {
        Verdict::Whole => 0,
        Verdict::Front => 1,
        Verdict::Order { .. }
        | Verdict::Contains { .. }
        | Verdict::Replay { .. }
        | Verdict::Step { .. }
        | Verdict::Open => 8,
    }
}

/// The status of a judgement.
pub(crate) fn status_of(judgement: Judgement) -> u8
    ensures { result ≡ judgement_status judgement }
{
    match judgement {
        Judgement::OfTable { fault: _ } => 8,
        Judgement::OfList { verdict } => verdict_status(verdict),
    }
}

/// Appends what of a report's top and suspects is another, without the end of the line.
fn push_table_fault(text: &mut Vec<u8>, fault: TableFault) -> Result<(), NoMemory>
    ensures { OnOk result (text.new.items ++ newline ≡ text.old.items ++ table_line fault) }
{
    match fault {
        TableFault::Top => push_bytes(text, b"no top"),
        TableFault::Suspect { number } => {
            push_bytes(text, b"no suspect")?;
            push_word(text, number as u64)
        }
    }
}

/// Appends a verdict without the end of its line.
fn push_verdict(
    text: &mut Vec<u8>,
    design: &Design,
    sets: usize,
    verdict: Verdict,
) -> Result<(), NoMemory>
    ensures { OnOk result (text.new.items ++ newline ≡ text.old.items ++ verdict_line design.now sets verdict) }
{
    match verdict {
        Verdict::Whole => {
            push_bytes(text, b"yes")?;
            push_word(text, sets as u64)
        }
        Verdict::Order { set } => {
            push_bytes(text, b"no order")?;
            push_word(text, u64::from(set))
        }
        Verdict::Contains { set, other } => {
            push_bytes(text, b"no contains")?;
            push_pair(text, set, other)
        }
        Verdict::Replay { set, miss } => {
            push_bytes(text, b"no replay")?;
            push_word(text, u64::from(set))?;
            push_miss(text, design, miss)
        }
        Verdict::Step { number } => {
            push_bytes(text, b"no step")?;
            push_word(text, u64::from(number))
        }
        Verdict::Front => {
            push_bytes(text, b"front")?;
            push_word(text, sets as u64)
        }
        Verdict::Open => push_bytes(text, b"no closing"),
    }
}

/// Appends a judgement without the end of its line.
fn push_judgement(
    text: &mut Vec<u8>,
    design: &Design,
    sets: usize,
    judgement: Judgement,
) -> Result<(), NoMemory>
    ensures { OnOk result (text.new.items ++ newline ≡ text.old.items ++ judgement_line design.now sets judgement) }
{
    match judgement {
        Judgement::OfTable { fault } => push_table_fault(text, fault),
        Judgement::OfList { verdict } => push_verdict(text, design, sets, verdict),
    }
}

/// The line of a judgement on so many sets of a design.
pub(crate) fn judgement_text(
    alloc: Global,
    design: &Design,
    sets: usize,
    judgement: Judgement,
) -> Result<Vec<u8>, NoMemory>
    ensures { IfOk result (λ text. text.items ≡ judgement_line design.now sets judgement) }
{
    let mut text = Vec::new(alloc);
    push_judgement(&mut text, design, sets, judgement)?;
    push_bytes(&mut text, b"\n")?;
    Ok(text)
}
