//! What is printed of a text that is refused.
ghost use Rattle.std.specs.Prelude.{◌≡◌, ◌≤◌, ◌+◌, ◌-◌, ◌<◌, ◌^◌, ◌++◌, [], OnOk, codes};
ghost use Rattle.refusal.specs.Codes.{code_span};
ghost use Rattle.note_text.specs.Tells.{TellsPlace, TellsRefused};
ghost use Rattle.note_text.specs.Texts.{Begins, code_word, error_text, line_text, spot_text};

use crate::excerpt::push_excerpt;
use crate::place::{Place, beginning, place_at};
use loc_base::{NoMemory, Span};
use printed_text::{push_bytes, push_number};
use refusal::{Code, Refusal};
use std::alloc::Global;
use std::fmt::Display;

/// A text that is refused, with its name.
#[derive(Clone, Copy)]
pub(crate) struct Refused<'a> {
    pub(crate) name: &'a str,
    pub(crate) source: &'a [u8],
    pub(crate) refusal: &'a Refusal,
}

/// Appends `: WORDS` and the end of the line; the words are those of a cause.
pub(crate) fn push_words<E: Display>(
    alloc: Global,
    text: &mut Vec<u8>,
    cause: &E,
) -> Result<(), NoMemory>
    ensures { OnOk result (Begins [] text.old.items text.new.items) }
{
    let words = format!(in alloc; ": {cause}\n")?;
    push_bytes(text, words.as_bytes())
}

/// The code of a refusal alone.
fn word_of(code: Code) -> &'static str
    ensures { result.now ≡ code_word code }
{
    match code {
        Code::Bare(word) | Code::At(word, _) | Code::Line(word, _) | Code::Limit(word) => word,
        Code::Memory => "memory",
    }
}

/// Appends `error CODE: WORDS` and the end of the line.
pub(crate) fn push_code(
    alloc: Global,
    text: &mut Vec<u8>,
    refusal: &Refusal,
) -> Result<(), NoMemory>
    ensures { OnOk result (Begins (codes "error " ++ code_word refusal.now.code) text.old.items text.new.items) }
{
    push_bytes(text, b"error ")?;
    push_bytes(text, word_of(refusal.code).as_bytes())?;
    push_words(alloc, text, refusal)
}

/// Appends `: error CODE: WORDS` and the end of the line.
fn push_error(alloc: Global, text: &mut Vec<u8>, refusal: &Refusal) -> Result<(), NoMemory>
    ensures { OnOk result (Begins (error_text (code_word refusal.now.code)) text.old.items text.new.items) }
{
    push_bytes(text, b": error ")?;
    push_bytes(text, word_of(refusal.code).as_bytes())?;
    push_words(alloc, text, refusal)
}

/// Appends `:LINE:COLUMN`, both from 1.
fn push_spot(text: &mut Vec<u8>, place: Place) -> Result<(), NoMemory>
    requires start { place.start ≤ place.at }
    requires small { place.at < 2 ^ 32 }
    ensures { OnOk result (text.new.items ≡ text.old.items ++ spot_text place.line (place.at - place.start + 1)) }
{
    push_bytes(text, b":")?;
    push_number(text, place.line)?;
    push_bytes(text, b":")?;
    push_number(text, (place.at - place.start + 1) as u64)
}

/// Appends where a text is refused, and why: the place, the line of the text, and a caret.
fn push_refused_at(
    alloc: Global,
    text: &mut Vec<u8>,
    refused: &Refused,
    span: Span,
) -> Result<(), NoMemory>
    ensures { OnOk result (TellsPlace refused.now.name.now refused.now.source.now (code_word refused.now.refusal.now.code) span
        text.old.items text.new.items) }
{
    let place = place_at(refused.source, beginning(refused.source, span));
    push_bytes(text, refused.name.as_bytes())?;
    push_spot(text, place)?;
    push_error(alloc, text, refused.refusal)?;
    push_excerpt(text, refused.source, place)
}

/// Appends `:LINE` of a code that names a line.
fn push_line(text: &mut Vec<u8>, code: Code) -> Result<(), NoMemory>
    ensures { OnOk result (text.new.items ≡ text.old.items ++ line_text code) }
{
    match code {
        Code::Line(_, line) => {
            push_bytes(text, b":")?;
            push_number(text, line)
        }
        _ => Ok(()),
    }
}

/// Appends the name of a text that is refused, with the line that the code names, and why.
fn push_refused_whole(alloc: Global, text: &mut Vec<u8>, refused: &Refused) -> Result<(), NoMemory>
    ensures { OnOk result (Begins refused.now.name.now text.old.items text.new.items) }
{
    push_bytes(text, refused.name.as_bytes())?;
    push_line(text, refused.refusal.code)?;
    push_error(alloc, text, refused.refusal)
}

/// Appends what is printed of a text that is refused.
pub(crate) fn push_refused(
    alloc: Global,
    text: &mut Vec<u8>,
    refused: &Refused,
) -> Result<(), NoMemory>
    ensures { OnOk result (TellsRefused refused.now.name.now refused.now.source.now (code_word refused.now.refusal.now.code)
        (code_span refused.now.refusal.now.code) text.old.items text.new.items) }
{
    match refused.refusal.code.span() {
        Some(span) => push_refused_at(alloc, text, refused, span),
        None => push_refused_whole(alloc, text, refused),
    }
}
