//! The pieces of a text: where the next one ends, and what it is.
ghost use Rattle.std.specs.Prelude.{◌∷◌, ◌≤◌};
ghost use Rattle.v_lexer.specs.Pieces.{kind_in, skipped_rest, taken_rest};
ghost use Rattle.v_lexer.specs.Longest.{HasFront};

use crate::bytes::{
    is_decimal, is_letter, is_mark, is_white, name_run, plain_run, white_run, word_run,
};
use crate::comments::{paren_piece, slash_piece};
use crate::directives::{Directive, directive_piece};
use crate::numbers::{based_length, number_length};
use crate::real_delays::hash_piece;
use crate::symbols::symbol_length;

/// What a piece of a text is.
#[derive(Clone, Copy)]
pub enum Piece {
    /// White space, a comment, an attribute, or text of a part that isn't taken.
    Blank,
    /// A block comment or an attribute that isn't closed.
    OpenComment,
    /// A simple identifier or a reserved word.
    Name,
    /// A backslash and the bytes up to white space.
    Escaped,
    /// A dollar sign and the bytes of a name.
    System,
    Symbol,
    /// A `#` with a real number directly behind it.
    RealDelay,
    /// A number, or the front of one.
    Number,
    /// A backtick and the word behind it, with as much as the directive takes.
    Directive(Directive),
    /// A byte that begins no piece.
    Stray,
}

/// The piece that begins with a byte in a part that is taken, and how many bytes of it stand behind that byte.
#[tactic(auto, using(crate::proofs::PieceRows::taken_rows))]
fn taken_piece(first: u8, rest: &[u8]) -> (Piece, usize)
    ensures { HasFront (taken_rest first) rest.now result.0 result.1 }
{
    if is_white(first) {
        (Piece::Blank, white_run(rest))
    } else if is_letter(first) {
        (Piece::Name, name_run(rest))
    } else if first == b'\\' {
        (Piece::Escaped, word_run(rest))
    } else if first == b'$' {
        (Piece::System, name_run(rest))
    } else if is_decimal(first) {
        (Piece::Number, number_length(rest))
    } else if first == b'\'' {
        (Piece::Number, based_length(rest))
    } else if first == b'`' {
        directive_piece(rest, false)
    } else if first == b'/' {
        slash_piece(rest)
    } else if first == b'(' {
        paren_piece(rest)
    } else if first == b'#' {
        hash_piece(rest)
    } else if is_mark(first) {
        (Piece::Symbol, symbol_length(first, rest))
    } else {
        (Piece::Stray, 0)
    }
}

/// The same in a part that isn't taken.
#[tactic(auto, using(crate::proofs::PieceRows::skipped_rows))]
fn skipped_piece(first: u8, rest: &[u8]) -> (Piece, usize)
    ensures { HasFront (skipped_rest first) rest.now result.0 result.1 }
{
    if first == b'`' {
        directive_piece(rest, true)
    } else if first == b'/' {
        slash_piece(rest)
    } else {
        (Piece::Blank, plain_run(rest))
    }
}

#[tactic(auto, using(crate::proofs::PieceRows::piece_rows))]
/// The first piece of a text that has bytes, and its length.
pub fn piece_at(first: u8, rest: &[u8], skipping: bool) -> (Piece, usize)
    ensures front { HasFront (kind_in skipping) (first ∷ rest.now) result.0 result.1 }
    ensures bytes { 1 ≤ result.1 }
{
    let (kind, size) = if skipping {
        skipped_piece(first, rest)
    } else {
        taken_piece(first, rest)
    };
    (kind, 1 + size)
}
