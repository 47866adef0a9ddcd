//! The line of a text at a place, and a caret under the place.
ghost use Rattle.std.specs.Prelude.{◌≡◌, ◌≤◌, ◌++◌, [], OnOk, length, map, replicate};
ghost use Rattle.note_text.specs.Texts.{Begins, shown_byte};

use crate::place::Place;
use loc_base::NoMemory;
use printed_text::push_bytes;

/// The most bytes that are shown of a line.
const MOST_BYTES: usize = 160;

/// How a byte is shown: a space for what moves the cursor, a question mark for what else isn't printable ASCII. Each takes one
/// column, so that the caret stands under its place.
fn shown(byte: u8) -> u8
    ensures { result ≡ shown_byte byte }
{
    match byte {
        b'\t' | b'\r' => b' ',
        32..=126 => byte,
        _ => b'?',
    }
}

/// Appends bytes as they are shown.
fn push_shown(text: &mut Vec<u8>, line: &[u8]) -> Result<(), NoMemory>
    ensures { OnOk result (text.new.items ≡ text.old.items ++ map shown_byte line.now) }
{
    for byte in line {
        text.push(shown(*byte))?;
    }
    Ok(())
}

/// Appends so many spaces.
fn push_spaces(text: &mut Vec<u8>, count: usize) -> Result<(), NoMemory>
    ensures { OnOk result (text.new.items ≡ text.old.items ++ replicate count 32) }
{
    for _k in 0..count {
        text.push(b' ')?;
    }
    Ok(())
}

/// From where on a line is shown: from its beginning, or where that is too far off from a little before the place.
fn first_shown(place: Place) -> usize
    requires { place.start ≤ place.at }
    ensures { result ≤ place.at }
{
    if place.at - place.start < MOST_BYTES {
        place.start
    } else {
        place.at - MOST_BYTES / 2
    }
}

/// What is shown of a line from a place on: to its end, but not more bytes than are shown.
fn line_from(text: &[u8], from: usize) -> &[u8]
    requires { from ≤ length text.now }
    ensures { length result.now ≤ 160 }
{
    let rest = &text[from..];
    let rest = &rest[..rest.len().min(MOST_BYTES)];
    match rest.iter().position(|byte| *byte == b'\n') {
        Some(end) => &rest[..end],
        None => rest,
    }
}

/// Appends the line of a place, and a caret under the place.
pub(crate) fn push_excerpt(text: &mut Vec<u8>, source: &[u8], place: Place) -> Result<(), NoMemory>
    requires start { place.start ≤ place.at }
    requires within { place.at ≤ length source.now }
    ensures { OnOk result (Begins [] text.old.items text.new.items) }
{
    let first = first_shown(place);
    push_bytes(text, b"    ")?;
    push_shown(text, line_from(source, first))?;
    push_bytes(text, b"\n    ")?;
    push_spaces(text, place.at - first)?;
    push_bytes(text, b"^\n")
}
