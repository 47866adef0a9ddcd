//! The name and the text that a `define` gives (IEEE 1364-2005, 19.3.1).
ghost use Rattle.std.specs.Prelude.{◌≡◌, ◌&&◌, nat_eq, IfOk, IfSome, IfNone, Some, None};
ghost use Rattle.v_lexer.specs.Directives as directive;

use crate::bytes::{behind, first_of, identifier_run, is_letter};
use crate::literals::skip_white;
use loc_base::NoMemory;
use std::alloc::Global;

/// Whether the bytes begin with this one.
fn begins_with(byte: u8, bytes: &[u8]) -> bool
    ensures { result ≡ directive.begins_with byte bytes.now }
{
    match first_of(bytes) {
        None => false,
        Some((first, _)) => first == byte,
    }
}

/// Whether a byte is a backslash that a newline stands behind.
fn goes_on(byte: u8, rest: &[u8]) -> bool
    ensures { result ≡ (nat_eq byte 92 && directive.begins_with 10 rest.now) }
{
    byte == b'\\' && begins_with(b'\n', rest)
}

/// A continued line without the backslashes that continue it.
pub fn joined(alloc: Global, tail: &[u8]) -> Result<Vec<u8>, NoMemory>
    ensures { IfOk result (λ line. line.items ≡ directive.joined tail.now) }
{
    let mut line = Vec::with_capacity(alloc, tail.len())?;
    for i in 0..tail.len() {
        let byte = tail[i];
        if goes_on(byte, behind(tail, i + 1)) {
            continue;
        }
        line.push(byte)?;
    }
    Ok(line)
}

/// The name at the front, where no parenthesis stands directly behind it, and the text behind the name.
#[tactic(auto, using(crate::proofs::DefinitionRows::definition_rows))]
fn definition_at(line: &[u8]) -> Option<(&[u8], &[u8])>
    ensures some { IfSome result (λ d. directive.definition_at line.now ≡ Some (d.0.now, d.1.now)) }
    ensures none { IfNone result (directive.definition_at line.now ≡ None) }
{
    let (first, _) = first_of(line)?;
    let (name, rest) = line.split_at(identifier_run(line));
    if is_letter(first) && !begins_with(b'(', rest) {
        Some((name, skip_white(rest)))
    } else {
        None
    }
}

/// The name and the text that a joined line gives.
pub fn definition_of(line: &[u8]) -> Option<(&[u8], &[u8])>
    ensures some { IfSome result (λ d. directive.definition_in line.now ≡ Some (d.0.now, d.1.now)) }
    ensures none { IfNone result (directive.definition_in line.now ≡ None) }
{
    definition_at(skip_white(line))
}
