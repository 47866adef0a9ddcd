//! Whether the kinds of suspects that a report names are there.
ghost use Rattle.std.specs.Prelude.{◌≡◌, ◌++◌, IfErr, IfOk, IsOk, None, OnOk, is_some, nat_eq};
ghost use Rattle.std.specs.Cmp.Lexicographic.{pointwise};
ghost use Rattle.std.specs.Option.{option_copied};
ghost use Rattle.suspect_map.specs.Choose.{named, unknown};
ghost use Rattle.refusal.specs.Ends.{HasCause};
ghost use Rattle.check_cmd.specs.Parts.{KindRefused};
ghost use Rattle.check_cmd.specs.Refusals.{kind_line};

use loc_base::{Name, NoMemory};
use printed_text::push_bytes;
use refusal::{Code, LastLine, Note, Notes, Refusal};
use report_doc::types::Report;
use std::alloc::Global;
use std::str;
use suspect_map::Granularity;
use thiserror::Error;

fn is_called(kind: &Box<dyn Granularity>, name: &Name) -> bool
    ensures { result ≡ pointwise nat_eq (called kind.now) name.now }
{
    kind.name().as_bytes() == name.as_bytes()
}

/// Whether some kind has the name.
fn is_known(kinds: &[Box<dyn Granularity>], name: &Name) -> bool
    ensures { result ≡ is_some (named (λ kind. called kind) kinds.now name.now) }
{
    for kind in kinds {
        if is_called(kind, name) {
            return true;
        }
    }
    false
}

/// The first name that no kind has.
fn first_unknown<'a>(kinds: &[Box<dyn Granularity>], names: &'a [Name]) -> Option<&'a Name>
    ensures { option_copied result ≡ unknown (λ kind. called kind) kinds.now names.now }
{
    for name in names {
        if !is_known(kinds, name) {
            return Some(name);
        }
    }
    None
}

/// The line that names a kind that isn't there.
fn kind_line_text(alloc: Global, name: &Name) -> Result<Vec<u8>, NoMemory>
    ensures { IfOk result (λ text. text.items ≡ kind_line name.now) }
{
    let mut text = Vec::new(alloc);
    push_bytes(&mut text, b"input U1 ")?;
    push_bytes(&mut text, name.as_bytes())?;
    push_bytes(&mut text, b"\n")?;
    Ok(text)
}

/// Why a report's kinds of suspects can't be looked at.
#[derive(Clone, Copy, Debug, Error)]
#[error("no kind of suspects is called {name}")]
struct NoKind<'a> {
    name: &'a str,
}

/// Tells of a kind that isn't there.
fn tell_unknown<N: Notes>(name: &Name, notes: &mut N) {
    if let Ok(name) = str::from_utf8(name.as_bytes()) {
        let refusal = Refusal::of(Code::Bare("U1"), &NoKind { name });
        notes.note(&Note::Limited { refusal: &refusal });
    }
}

/// Refuses a report with kinds that aren't there, by the first, which is told.
pub(crate) fn know<N: Notes>(
    alloc: Global,
    kinds: &[Box<dyn Granularity>],
    report: &Report,
    notes: &mut N,
) -> Result<(), LastLine>
    ensures known { IfOk result (λ _. unknown (λ kind. called kind) kinds.now report.now.kinds ≡ None) }
    ensures refused { IfErr result (HasCause (KindRefused (unknown (λ kind. called kind) kinds.now report.now.kinds))) }
    ensures only { unknown (λ kind. called kind) kinds.now report.now.kinds ≡ None → IsOk result }
{
    match first_unknown(kinds, report.kinds.as_slice()) {
        None => Ok(()),
        Some(name) => {
            tell_unknown(name, notes);
            Err(LastLine::of_made(3, kind_line_text(alloc, name)))
        }
    }
}
