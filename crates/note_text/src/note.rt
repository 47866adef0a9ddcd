//! What is printed of a note.
ghost use Rattle.std.specs.Prelude.{◌≡◌, ◌++◌, OnOk, codes, decimal};
ghost use Rattle.loc_base.specs.Bits.{value_of, width_of};
ghost use Rattle.note_text.specs.Tells.{Tells};
ghost use Rattle.note_text.specs.Texts.{Begins, moment_text, output_text, scope_text, synopsis_text, values_text, wrong_text};

use crate::literal::push_literal;
use crate::refused::{Refused, push_code, push_refused, push_words};
use io_ports::FaultKind;
use loc_base::{Bits, Name, NoMemory};
use printed_text::{push_bytes, push_number};
use refusal::{Note, Refusal};
use std::alloc::Global;

/// Appends the argument that is wrong, where it is known.
fn push_wrong(text: &mut Vec<u8>, word: &str) -> Result<(), NoMemory>
    ensures { OnOk result (text.new.items ≡ text.old.items ++ wrong_text word.now) }
{
    if word.is_empty() {
        return Ok(());
    }
    push_bytes(text, b": ")?;
    push_bytes(text, word.as_bytes())
}

/// Appends how a command is called, and where its arguments are explained.
fn push_synopsis(text: &mut Vec<u8>, synopsis: &[u8]) -> Result<(), NoMemory>
    ensures { OnOk result (text.new.items ≡ text.old.items ++ synopsis_text synopsis.now) }
{
    push_bytes(text, synopsis)?;
    push_bytes(text, b"\nlocalise help COMMAND explains the arguments\n")
}

/// Appends what is wrong with the arguments.
fn push_usage(
    alloc: Global,
    text: &mut Vec<u8>,
    cause: &Refusal,
    word: &str,
) -> Result<(), NoMemory>
    ensures { OnOk result (Begins (codes "localise" ++ wrong_text word.now) text.old.items text.new.items) }
{
    push_bytes(text, b"localise")?;
    push_wrong(text, word)?;
    push_words(alloc, text, cause)
}

/// Appends that a text can't be read.
fn push_unread(
    alloc: Global,
    text: &mut Vec<u8>,
    name: &str,
    cause: FaultKind,
) -> Result<(), NoMemory>
    ensures { OnOk result (Begins (codes "cannot read " ++ name.now) text.old.items text.new.items) }
{
    push_bytes(text, b"cannot read ")?;
    push_bytes(text, name.as_bytes())?;
    push_words(alloc, text, &cause)
}

/// Appends that a text, or of no name the output, can't be written.
fn push_unwritten(
    alloc: Global,
    text: &mut Vec<u8>,
    name: &str,
    cause: FaultKind,
) -> Result<(), NoMemory>
    ensures { OnOk result (Begins (codes "cannot write ") text.old.items text.new.items) }
{
    let name = if name.is_empty() { "the output" } else { name };
    push_bytes(text, b"cannot write ")?;
    push_bytes(text, name.as_bytes())?;
    push_words(alloc, text, &cause)
}

/// Appends words and a number.
fn push_counted(text: &mut Vec<u8>, words: &[u8], number: u32) -> Result<(), NoMemory>
    ensures { OnOk result (text.new.items ≡ text.old.items ++ words.now ++ decimal number) }
{
    push_bytes(text, words)?;
    push_number(text, u64::from(number))
}

/// Appends the trace and the cycle of a miss.
fn push_moment(text: &mut Vec<u8>, trace: u32, cycle: u32) -> Result<(), NoMemory>
    ensures { OnOk result (text.new.items ≡ text.old.items ++ moment_text trace cycle) }
{
    push_counted(text, b"trace ", trace)?;
    push_counted(text, b" misses in cycle ", cycle)
}

/// Appends the scope of a trace.
fn push_scope(text: &mut Vec<u8>, trace: u32, path: &str) -> Result<(), NoMemory>
    ensures { OnOk result (text.new.items ≡ text.old.items ++ scope_text trace path.now) }
{
    push_counted(text, b"trace ", trace)?;
    push_bytes(text, b": scope ")?;
    push_bytes(text, path.as_bytes())?;
    push_bytes(text, b"\n")
}

/// Appends the output that misses.
fn push_output(text: &mut Vec<u8>, output: &Name) -> Result<(), NoMemory>
    ensures { OnOk result (text.new.items ≡ text.old.items ++ output_text output.now) }
{
    push_bytes(text, b": ")?;
    push_bytes(text, output.as_bytes())
}

/// Appends the value that is given, and the one that is wanted.
fn push_values(text: &mut Vec<u8>, given: Bits, wanted: Bits) -> Result<(), NoMemory>
    ensures { OnOk result (text.new.items ≡ text.old.items
        ++ values_text (width_of given) (value_of given) (width_of wanted) (value_of wanted)) }
{
    push_bytes(text, b" is ")?;
    push_literal(text, given)?;
    push_bytes(text, b", wanted ")?;
    push_literal(text, wanted)?;
    push_bytes(text, b"\n")
}

/// Appends what is printed of a note, in whole lines; nothing of those of which nothing is printed. The want of memory is that of
/// the text: some of it may stand then.
pub fn push_note(alloc: Global, text: &mut Vec<u8>, note: &Note<'_>) -> Result<(), NoMemory>
    ensures { OnOk result (Tells note.now text.old.items text.new.items) }
{
    match *note {
        Note::Usage {
            cause,
            word,
            synopsis,
        } => {
            push_usage(alloc, text, cause, word)?;
            push_synopsis(text, synopsis)
        }
        Note::Refused {
            name,
            text: source,
            refusal,
        } => {
            let refused = Refused {
                name,
                source,
                refusal,
            };
            push_refused(alloc, text, &refused)
        }
        Note::Limited { refusal } => push_code(alloc, text, refusal),
        Note::Unread { name, cause } => push_unread(alloc, text, name, cause),
        Note::Unwritten { name, cause } => push_unwritten(alloc, text, name, cause),
        Note::Missed {
            trace,
            cycle,
            output,
            wanted,
            given,
        } => {
            push_moment(text, trace, cycle)?;
            push_output(text, output)?;
            push_values(text, given, wanted)
        }
        Note::Scope { trace, path } => push_scope(text, trace, path),
        // Of these nothing is printed.
        Note::Progress { .. } | Note::Printing | Note::Written { .. } => Ok(()),
    }
}
