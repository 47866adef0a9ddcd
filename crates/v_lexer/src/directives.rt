//! Compiler directives (IEEE 1364-2005, clause 19): the word behind a backtick, and how far the directive goes.
ghost use Rattle.std.specs.Prelude.{◌≡◌, ◌&&◌, ◌≤◌, not, nat_eq, false, length, IfSome, IfNone};
ghost use Rattle.v_lexer.specs.declared.pieces.Piece.{Piece};
ghost use Rattle.v_lexer.specs.Directives as directive;
ghost use Rattle.v_lexer.specs.Pieces.{directive_rest, if_all};
ghost use Rattle.v_lexer.specs.Longest.{HasFront, HasNoFront};

use crate::bytes::{
    behind, first_of, identifier_run, is_letter, is_white, line_run, name_run, white_run,
};
use crate::pieces::Piece;
use crate::words::is_among;

/// What the word behind a backtick asks for.
#[derive(Clone, Copy)]
pub enum Directive {
    Define,
    Undef,
    Ifdef,
    Ifndef,
    Elsif,
    Else,
    Endif,
    /// `line`, which stands alone on its line.
    Line,
    /// One that is skipped to the line's end.
    ToLineEnd,
    /// One that is skipped alone.
    Alone,
    /// Any other word: the use of a macro.
    Use,
}

/// The directive that a word names.
#[tactic(auto, unfolding(crate::specs::Directives::directive_of))]
fn directive_of(word: &[u8]) -> Directive
    ensures { result ≡ directive.directive_of word.now }
{
    if word == "define".as_bytes() {
        Directive::Define
    } else if word == "undef".as_bytes() {
        Directive::Undef
    } else if word == "ifdef".as_bytes() {
        Directive::Ifdef
    } else if word == "ifndef".as_bytes() {
        Directive::Ifndef
    } else if word == "elsif".as_bytes() {
        Directive::Elsif
    } else if word == "else".as_bytes() {
        Directive::Else
    } else if word == "endif".as_bytes() {
        Directive::Endif
    } else if word == "line".as_bytes() {
        Directive::Line
    } else if is_among(word, &["timescale", "default_nettype"]) {
        Directive::ToLineEnd
    } else if is_among(word, &["celldefine", "endcelldefine", "resetall"]) {
        Directive::Alone
    } else {
        Directive::Use
    }
}

/// Behind white space: the length of more of it and a macro's name, where it comes.
#[tactic(auto, using(crate::proofs::DirectiveRows::spaced_name_rows))]
fn spaced_name_length(rest: &[u8]) -> Option<usize>
    ensures none { IfNone result ((kind : Piece) → HasNoFront (if_all directive.is_spaced_name kind) rest.now) }
    ensures found { IfSome result (λ n. (kind : Piece) → HasFront (if_all directive.is_spaced_name kind) rest.now kind n) }
    ensures within { IfSome result (λ n. n ≤ length rest.now) }
{
    let spaces = white_run(rest);
    let (byte, tail) = first_of(behind(rest, spaces))?;
    if is_letter(byte) {
        Some(spaces + 1 + name_run(tail))
    } else {
        None
    }
}

/// Behind the word of a directive that takes a macro's name.
#[tactic(auto, using(crate::proofs::DirectiveRows::named_rows))]
fn named_length(rest: &[u8]) -> usize
    ensures found { (kind : Piece) → HasFront (if_all directive.is_named kind) rest.now kind result }
    ensures within { result ≤ length rest.now }
{
    match first_of(rest) {
        None => 0,
        Some((byte, tail)) => {
            if is_white(byte) {
                match spaced_name_length(tail) {
                    Some(size) => 1 + size,
                    None => 0,
                }
            } else {
                0
            }
        }
    }
}

/// Whether a byte ends a line, by whether a backslash stands before it.
fn ends_line(escaped: bool, byte: u8) -> bool
    ensures { result ≡ (nat_eq byte 10 && not escaped) }
{
    byte == b'\n' && !escaped
}

/// Up to the first newline that no backslash stands before.
fn line_length(rest: &[u8]) -> usize
    ensures found { (kind : Piece) → HasFront (if_all (directive.is_line false) kind) rest.now kind result }
    ensures within { result ≤ length rest.now }
{
    let mut escaped = false;
    for i in 0..rest.len() {
        let byte = rest[i];
        if ends_line(escaped, byte) {
            return i;
        }
        escaped = byte == b'\\';
    }
    rest.len()
}

/// How far a directive goes behind its word.
#[tactic(auto, using(crate::proofs::DirectiveRows::tail_rows))]
fn tail_length(rest: &[u8], word: Directive, skipping: bool) -> usize
    ensures found { (kind : Piece) → HasFront (if_all (directive.is_tail skipping word) kind) rest.now kind result }
    ensures within { result ≤ length rest.now }
{
    match word {
        Directive::Define => { if skipping { 0 } else { line_length(rest) } }
        Directive::Line => { if skipping { 0 } else { line_run(rest) } }
        Directive::ToLineEnd => { if skipping { 0 } else { line_run(rest) } }
        Directive::Undef | Directive::Ifdef | Directive::Ifndef | Directive::Elsif => named_length(
            rest,
        ),
        Directive::Else | Directive::Endif | Directive::Alone | Directive::Use => 0,
    }
}

/// Behind a backtick: the word and as much as its directive takes.
pub fn directive_piece(rest: &[u8], skipping: bool) -> (Piece, usize)
    ensures { HasFront (directive_rest skipping) rest.now result.0 result.1 }
{
    let size = identifier_run(rest);
    let (front, tail) = rest.split_at(size);
    let word = directive_of(front);
    (
        Piece::Directive(word),
        size + tail_length(tail, word, skipping),
    )
}
