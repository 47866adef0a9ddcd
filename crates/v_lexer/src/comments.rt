//! Comments and attributes (IEEE 1364-2005, 3.3 and 3.8): what stands behind a slash, and behind an opening parenthesis.
ghost use Rattle.std.specs.Prelude.{◌≡◌, ◌&&◌, nat_eq, IfSome, IfNone};
ghost use Rattle.v_lexer.specs.Pieces.{attribute_rest, block_rest, paren_rest, slash_rest};
ghost use Rattle.v_lexer.specs.Longest.{HasFront, HasNoFront};

use crate::bytes::{behind, first_of, line_run, white_run};
use crate::pieces::Piece;

/// Whether a byte closes a block comment or an attribute, by whether a star stands before it.
fn closes(close: u8, star: bool, byte: u8) -> bool
    ensures { result ≡ (star && nat_eq byte close) }
{
    star && byte == close
}

/// Inside a block comment or an attribute: up to the first closing byte behind a star, or all bytes where there is none; `first` says
/// that a star stands before these bytes.
fn block_piece(close: u8, first: bool, rest: &[u8]) -> (Piece, usize)
    ensures { HasFront (block_rest close first) rest.now result.0 result.1 }
{
    let mut star = first;
    for i in 0..rest.len() {
        let byte = rest[i];
        if closes(close, star, byte) {
            return (Piece::Blank, i + 1);
        }
        star = byte == b'*';
    }
    (Piece::OpenComment, rest.len())
}

/// Behind a slash: a comment of either form, or a symbol of one byte.
pub fn slash_piece(rest: &[u8]) -> (Piece, usize)
    ensures { HasFront slash_rest rest.now result.0 result.1 }
{
    match first_of(rest) {
        None => (Piece::Symbol, 0),
        Some((byte, tail)) => {
            if byte == b'/' {
                (Piece::Blank, 1 + line_run(tail))
            } else if byte == b'*' {
                let (kind, size) = block_piece(b'/', false, tail);
                (kind, 1 + size)
            } else {
                (Piece::Symbol, 0)
            }
        }
    }
}

/// Behind the two bytes that open an attribute, where they open one.
#[tactic(auto, using(crate::proofs::SymbolRows::attribute_rows))]
fn attribute_piece(rest: &[u8]) -> Option<(Piece, usize)>
    ensures found { IfSome result (λ p. HasFront attribute_rest rest.now p.0 p.1) }
    ensures none { IfNone result (HasNoFront attribute_rest rest.now) }
{
    let spaces = white_run(rest);
    let (byte, tail) = first_of(behind(rest, spaces))?;
    if byte == b')' {
        return None;
    }
    let (kind, size) = block_piece(b')', byte == b'*', tail);
    Some((kind, spaces + 1 + size))
}

/// Behind an opening parenthesis: an attribute, or a symbol of one byte.
#[tactic(auto, using(crate::proofs::SymbolRows::paren_rows))]
pub fn paren_piece(rest: &[u8]) -> (Piece, usize)
    ensures { HasFront paren_rest rest.now result.0 result.1 }
{
    match first_of(rest) {
        None => (Piece::Symbol, 0),
        Some((byte, tail)) => {
            if byte == b'*' {
                match attribute_piece(tail) {
                    Some((kind, size)) => (kind, 1 + size),
                    None => (Piece::Symbol, 0),
                }
            } else {
                (Piece::Symbol, 0)
            }
        }
    }
}
