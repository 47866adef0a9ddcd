//! What is made before anything is written.
ghost use Rattle.std.specs.Prelude.{◌≡◌, IfOk, List, ℕ, true};
ghost use Rattle.made_input.specs.Made.{made_line};
ghost use Rattle.write_order.specs.Writes.{Leaves, WriteCause, on_shelf};
ghost use Rattle.make_cmd.specs.Asked.{finding_of};
ghost use Rattle.requests.specs.Views.{make_asked, reading_asked};
ghost use Rattle.make_cmd.specs.Shelves.{IsMadeBy, text_writes, texts_writes};

use crate::made_shelf::MadeShelf;
use crate::request::reading_of;
use io_ports::Shelf;
use loc_base::{Bytes, NoMemory};
use made_input::{design_text, made_line, trace_text};
use refusal::{Note, Notes};
use requests::{MakeRequest, Reading};
use std::alloc::Global;
use write_order::{WriteErr, begin_text, put_piece};

/// A made input, and how its list reads it.
#[derive(Drop)]
pub(crate) struct Made<'a> {
    pub texts: MadeShelf<'a>,
    pub line: Bytes,
    pub reading: Reading,
}

impl<'a> Made<'a> {
    /// The input that is asked for.
    pub(crate) fn of(alloc: Global, request: &'a MakeRequest) -> Result<Made<'a>, NoMemory>
        ensures texts { IfOk result (λ made. IsMadeBy (make_asked request.now) made.texts) }
        ensures line { IfOk result (λ made. made.line ≡ made_line request.now.number) }
        ensures reading { IfOk result (λ made. reading_asked made.reading ≡ (finding_of (make_asked request.now)).sources) }
    {
        let texts = MadeShelf {
            design_name: request.design.as_str(),
            design: design_text(alloc, request.number)?,
            trace_name: request.trace.as_str(),
            trace: trace_text(alloc, request.number)?,
        };
        Ok(Made {
            texts,
            line: made_line(alloc, request.number)?,
            reading: reading_of(alloc, request)?,
        })
    }
}

/// Writes a text.
fn write_text<S: Shelf, N: Notes>(
    shelf: &mut S,
    name: &str,
    text: &Bytes,
    notes: &mut N,
) -> Result<(), WriteErr>
    ensures tells { S.tells shelf.new ≡ S.tells shelf.old }
    ensures texts { S.texts shelf.new ≡ S.texts shelf.old }
    ensures left { S.tells shelf.old ≡ true → (printed : List ℕ)
        → Leaves (text_writes name.now text.now) (on_shelf (S.written shelf.old) (S.written shelf.new) printed) result }
    ensures cause { WriteCause (S.faults shelf.old) (S.faults shelf.new) result }
{
    begin_text(shelf, name, notes)?;
    put_piece(shelf, name, text.as_slice(), notes)?;
    notes.note(&Note::Written { name });
    Ok(())
}

/// Writes both texts.
pub(crate) fn write_texts<S: Shelf, N: Notes>(
    texts: &MadeShelf<'_>,
    shelf: &mut S,
    notes: &mut N,
) -> Result<(), WriteErr>
    ensures tells { S.tells shelf.new ≡ S.tells shelf.old }
    ensures texts { S.texts shelf.new ≡ S.texts shelf.old }
    ensures left { S.tells shelf.old ≡ true → (printed : List ℕ)
        → Leaves (texts_writes texts.now) (on_shelf (S.written shelf.old) (S.written shelf.new) printed) result }
    ensures cause { WriteCause (S.faults shelf.old) (S.faults shelf.new) result }
{
    write_text(shelf, texts.design_name, &texts.design, notes)?;
    write_text(shelf, texts.trace_name, &texts.trace, notes)
}
