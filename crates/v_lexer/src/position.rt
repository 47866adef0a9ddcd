//! Places in the text.
ghost use Rattle.std.specs.Prelude.{◌≡◌, ◌≤◌, count_by, length, nat_eq};
ghost use Rattle.std.specs.List.{list_any};
ghost use Rattle.v_lexer.specs.Acts as place;
ghost use Rattle.v_lexer.specs.Outcomes.{HasSpan, IsWithin};

use crate::bytes::is_all_white;
use crate::directives::Directive;
use loc_base::Span;

/// Where a piece begins.
#[derive(Clone, Copy)]
pub enum Position {
    /// In the text itself: the offset from 0, the line from 1, and whether only white space stands before it on its line.
    Text { from: u32, line: u32, fresh: bool },
    /// In the text of a macro: the span and the line of the macro's use in the text.
    Macro { span: Span, line: u32 },
}

fn newlines(piece: &[u8]) -> usize
    ensures counts { result ≡ count_by (λ byte. nat_eq byte 10) piece.now }
    ensures within { result ≤ length piece.now }
{
    piece.iter().filter(|byte| **byte == b'\n').count()
}

fn has_newline(piece: &[u8]) -> bool
    ensures { result ≡ list_any (λ byte. nat_eq byte 10) piece.now }
{
    piece.iter().any(|byte| *byte == b'\n')
}

/// Whether only white space stands on a line behind a piece, by whether only white space stood there before it.
fn stays_fresh(fresh: bool, piece: &[u8]) -> bool
    ensures { result ≡ place.stays_fresh fresh piece.now }
{
    is_all_white(piece) && (fresh || has_newline(piece))
}

/// Whether a directive stands alone on its line.
fn is_line(word: Directive) -> bool
    ensures { result ≡ place.is_line word }
{
    matches!(word, Directive::Line)
}

impl Position {
    /// The span of so many bytes from here on.
    pub fn span(self, size: usize) -> Span
        requires { HasSpan self size }
        ensures { result ≡ place.span_of self size }
    {
        match self {
            Position::Text {
                from,
                line: _,
                fresh: _,
            } => Span {
                from,
                to: from + size as u32,
            },
            Position::Macro { span, line: _ } => span,
        }
    }

    pub fn line(self) -> u32
        ensures { result ≡ place.line_of self }
    {
        match self {
            Position::Text {
                from: _,
                line,
                fresh: _,
            } => line,
            Position::Macro { span: _, line } => line,
        }
    }

    /// The place behind a piece that begins here.
    pub fn past(self, piece: &[u8]) -> Position
        requires { IsWithin self (length piece.now) }
        ensures { result ≡ place.past self piece.now }
    {
        match self {
            Position::Text { from, line, fresh } => Position::Text {
                from: from + piece.len() as u32,
                line: line + newlines(piece) as u32,
                fresh: stays_fresh(fresh, piece),
            },
            Position::Macro { span, line } => Position::Macro { span, line },
        }
    }

    /// Any place in the text of the macro that a piece here uses.
    pub fn inside(self, piece: &[u8]) -> Position
        requires { HasSpan self (length piece.now) }
        ensures { result ≡ place.inside self piece.now }
    {
        Position::Macro {
            span: self.span(piece.len()),
            line: self.line(),
        }
    }

    /// Whether a directive may stand here.
    pub fn may_have(self, word: Directive) -> bool
        ensures { result ≡ place.may_stand self word }
    {
        match self {
            Position::Text {
                from: _,
                line: _,
                fresh,
            } => fresh || !is_line(word),
            Position::Macro { span: _, line: _ } => false,
        }
    }
}
