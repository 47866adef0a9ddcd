//! A text of a session: its load, and what is said where it is refused.
ghost use Rattle.std.specs.Prelude.{◌≡◌, ◌≤◌, IfErr, IfOk, Some, length, true};
ghost use Rattle.load_texts.specs.Means.{most_bytes};
ghost use Rattle.refusal.specs.Codes.{code_line, code_status};
ghost use Rattle.refusal.specs.Ends.{CountsOf, HasCause, HasStatus, IsSpared, Says};
ghost use Rattle.session_reading.specs.Parts.{IsShort, LoadRefused};

use io_ports::Shelf;
use load_texts::load_text;
use loc_base::Bytes;
use refusal::{Code, LastLine, Note, Notes, Refusal};
use std::alloc::Global;
use std::fmt::Display;

/// The text under a name, or the line that ends the run.
pub(crate) fn load<S: Shelf, N: Notes>(
    alloc: Global,
    name: &str,
    shelf: &mut S,
    notes: &mut N,
) -> Result<Bytes, LastLine>
    ensures tells { S.tells shelf.new ≡ S.tells shelf.old }
    ensures texts { S.texts shelf.new ≡ S.texts shelf.old }
    ensures written { S.written shelf.new ≡ S.written shelf.old }
    ensures counts { CountsOf (S.faults shelf.old) (S.faults shelf.new) result }
    ensures status { IfErr result HasStatus }
    ensures short { IfOk result (λ text. length text ≤ most_bytes) }
    ensures text { S.tells shelf.old ≡ true → IfOk result (λ text. S.texts shelf.old name.now ≡ Some text) }
    ensures refused { S.tells shelf.old ≡ true → IfErr result (HasCause (LoadRefused name.now (S.texts shelf.old name.now))) }
    ensures only { S.tells shelf.old ≡ true → IsShort (S.texts shelf.old name.now) → IfErr result IsSpared }
{
    match load_text(alloc, name, shelf, notes) {
        Ok(text) => Ok(text),
        Err(fault) => Err(fault.last_line(alloc, name)),
    }
}

/// A text, and its name.
#[derive(Clone, Copy, Drop)]
pub(crate) struct NamedText<'a> {
    pub(crate) name: &'a str,
    pub(crate) bytes: &'a Bytes,
}

impl NamedText<'_> {
    /// Tells why the text is refused, and answers the line that ends the run.
    pub(crate) fn refuse<E: Display, N: Notes>(
        &self,
        alloc: Global,
        code: Code,
        cause: &E,
        notes: &mut N,
    ) -> LastLine
        ensures says { Says result (code_status code) (code_line code) }
        ensures status { HasStatus result }
    {
        notes.note(&Note::Refused {
            name: self.name,
            text: self.bytes.as_slice(),
            refusal: &Refusal::of(code, cause),
        });
        LastLine::of_code(alloc, code)
    }
}
