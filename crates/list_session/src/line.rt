//! The line of a list that a run can't go on with.
ghost use Rattle.std.specs.Prelude.{◌≡◌, ◌++◌, IfOk, OnOk};
ghost use Rattle.printed_text.specs.Numerals.{newline};
ghost use Rattle.refusal.specs.Ends.{HasStatus, Says};
ghost use Rattle.list_session.specs.Unfit.{unfit_line};

use crate::unfit::Unfit;
use crate::words::{push_miss, push_pair, push_word};
use design_core::Design;
use loc_base::NoMemory;
use printed_text::push_bytes;
use refusal::LastLine;
use std::alloc::Global;

/// Appends what is unfit, without the end of the line.
fn push_unfit(text: &mut Vec<u8>, design: &Design, unfit: Unfit) -> Result<(), NoMemory>
    ensures { OnOk result (text.new.items ++ newline ≡ text.old.items ++ unfit_line design.now unfit) }
{
    match unfit {
        Unfit::Order { set } => {
            push_bytes(text, b"input F2")?;
            push_word(text, u64::from(set))
        }
        Unfit::Contains { set, other } => {
            push_bytes(text, b"input F3")?;
            push_pair(text, set, other)
        }
        Unfit::Replay { set, miss } => {
            push_bytes(text, b"input F1")?;
            push_word(text, u64::from(set))?;
            push_miss(text, design, miss)
        }
        Unfit::Step { number } => {
            push_bytes(text, b"input F4")?;
            push_word(text, u64::from(number))
        }
        Unfit::Shown { suspect } => {
            push_bytes(text, b"input F5")?;
            push_word(text, u64::from(suspect))
        }
    }
}

/// The whole line.
fn unfit_text(alloc: Global, design: &Design, unfit: Unfit) -> Result<Vec<u8>, NoMemory>
    ensures { IfOk result (λ text. text.items ≡ unfit_line design.now unfit) }
{
    let mut text = Vec::new(alloc);
    push_unfit(&mut text, design, unfit)?;
    push_bytes(&mut text, b"\n")?;
    Ok(text)
}

/// The line that ends a run because a list is unfit to go on with.
pub fn unfit_line(alloc: Global, design: &Design, unfit: Unfit) -> LastLine
    ensures says { Says result 3 (unfit_line design.now unfit) }
    ensures status { HasStatus result }
{
    LastLine::of_made(3, unfit_text(alloc, design, unfit))
}
