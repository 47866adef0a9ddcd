//! Carrying out compiler directives (IEEE 1364-2005, clause 19).
ghost use Rattle.std.specs.Prelude.{◌≡◌, ◌≤◌, ℕ, false, Some, if◌then◌else◌, drop, length};
ghost use Rattle.v_lexer.specs.declared.conditionals.Arm.TheVariants as arm;
ghost use Rattle.v_lexer.specs.declared.pieces.Piece.TheVariants.{Directive as DirectivePiece};
ghost use Rattle.v_lexer.specs.Acts as act;
ghost use Rattle.v_lexer.specs.Directives as directive;
ghost use Rattle.v_lexer.specs.Outcomes.{Gives, IsWithin, is_use};
ghost use Rattle.v_lexer.specs.Pieces.{kind_in};

use crate::bytes::{behind, identifier_run};
use crate::conditionals::{Arm, Conditional, is_nested, next_arm};
use crate::definitions::{definition_of, joined};
use crate::directives::Directive;
use crate::line_directives::is_line_tail;
use crate::literals::skip_white;
use crate::pieces::Piece;
use crate::position::Position;
use crate::state::State;
use crate::types::LexErr;
use loc_base::Span;
use std::alloc::Global;

/// The first arm of a conditional.
fn first_arm(holds: bool) -> Arm
    ensures { result ≡ if holds then arm.Taken else arm.Waiting }
{
    if holds { Arm::Taken } else { Arm::Waiting }
}

/// Whether a name is there.
fn is_some_name(name: &[u8]) -> bool
    ensures { result ≡ act.is_some_name name.now }
{
    match crate::bytes::first_of(name) {
        None => false,
        Some(_) => true,
    }
}

/// The span of a backtick and the word behind it.
#[tactic(auto, using(crate::proofs::CommandRows::span_rows))]
pub fn word_span(place: Position, piece: &[u8]) -> Span
    requires bytes { 1 ≤ length piece.now }
    requires within { IsWithin place (length piece.now) }
    ensures { result ≡ act.word_span place piece.now }
{
    place.span(1 + identifier_run(behind(piece, 1)))
}

/// The span of a piece's first byte.
#[tactic(auto, using(crate::proofs::TextRows::text_rows))]
fn first_span(place: Position, piece: &[u8]) -> Span
    requires { IsWithin place (length piece.now) }
    ensures { result ≡ act.span_of place 1 }
{
    let _ = piece;
    place.span(1)
}

/// The span of the two bytes that open a comment.
#[tactic(auto, using(crate::proofs::TextRows::text_rows))]
fn open_span(place: Position, piece: &[u8]) -> Span
    requires { IsWithin place (length piece.now) }
    ensures { result ≡ act.span_of place 2 }
{
    let _ = piece;
    place.span(2)
}

/// What stands behind the word of a directive.
fn tail_of(piece: &[u8]) -> &[u8]
    requires { 1 ≤ length piece.now }
    ensures { result.now ≡ directive.tail_of (drop 1 piece.now) }
{
    let body = behind(piece, 1);
    behind(body, identifier_run(body))
}

impl State {
    /// Opens a conditional.
    fn opens(&mut self, opener: Span, arm: Arm) -> Result<(), LexErr>
        ensures { Gives (act.opens self.old opener arm) result self.new }
    {
        let conditional = Conditional {
            opener,
            arm,
            is_last: false,
        };
        self.conditionals.push(conditional)?;
        Ok(())
    }

    /// Opens a conditional with a macro's name, by whether the part behind it is taken.
    #[tactic(auto, using(crate::proofs::CommandRows::command_rows))]
    fn opens_if(&mut self, opener: Span, name: &[u8], holds: bool) -> Result<(), LexErr>
        ensures { Gives (act.opens_if self.old opener name.now holds) result self.new }
    {
        if is_some_name(name) {
            self.opens(opener, first_arm(holds))
        } else {
            Err(LexErr::Directive(opener))
        }
    }

    /// Goes on with the next arm of the innermost conditional.
    #[tactic(auto, using(crate::proofs::CommandRows::command_rows))]
    fn goes_on(&mut self, span: Span, fits: bool, holds: bool, is_last: bool) -> Result<(), LexErr>
        ensures { Gives (act.goes_on self.old span fits holds is_last) result self.new }
    {
        match self.conditionals.pop() {
            None => Err(LexErr::Directive(span)),
            Some(inner) => {
                if is_nested(inner.arm) {
                    self.conditionals.push(inner)?;
                    Ok(())
                } else if inner.is_last || !fits {
                    Err(LexErr::Directive(span))
                } else {
                    let next = Conditional {
                        opener: inner.opener,
                        arm: next_arm(inner.arm, holds),
                        is_last,
                    };
                    self.conditionals.push(next)?;
                    Ok(())
                }
            }
        }
    }

    /// Closes the innermost conditional.
    #[tactic(auto, using(crate::proofs::CommandRows::command_rows))]
    fn closes(&mut self, span: Span) -> Result<(), LexErr>
        ensures { Gives (act.closes self.old span) result self.new }
    {
        match self.conditionals.pop() {
            None => Err(LexErr::Directive(span)),
            Some(_) => Ok(()),
        }
    }

    /// Defines a macro.
    #[tactic(auto, using(crate::proofs::CommandRows::command_rows))]
    fn defines(&mut self, alloc: Global, span: Span, tail: &[u8]) -> Result<(), LexErr>
        ensures { Gives (act.defines self.old span tail.now) result self.new }
    {
        let line = joined(alloc, tail)?;
        match definition_of(line.as_slice()) {
            None => Err(LexErr::Directive(span)),
            Some((name, text)) => {
                self.macros.insert(name, text)?;
                Ok(())
            }
        }
    }

    /// Takes a macro away.
    #[tactic(auto, using(crate::proofs::CommandRows::command_rows))]
    fn undefines(&mut self, span: Span, name: &[u8]) -> Result<(), LexErr>
        ensures { Gives (act.undefines self.old span name.now) result self.new }
    {
        if is_some_name(name) {
            self.macros.remove(name);
            Ok(())
        } else {
            Err(LexErr::Directive(span))
        }
    }

    /// Reads and ignores a `line` directive.
    #[tactic(auto, using(crate::proofs::CommandRows::command_rows))]
    fn lines(&mut self, span: Span, tail: &[u8]) -> Result<(), LexErr>
        ensures { Gives (act.lines self.old span tail.now) result self.new }
    {
        if is_line_tail(tail) {
            Ok(())
        } else {
            Err(LexErr::Directive(span))
        }
    }

    /// Carries out a directive in a part that is taken.
    fn directs(
        &mut self,
        alloc: Global,
        span: Span,
        word: Directive,
        tail: &[u8],
    ) -> Result<(), LexErr>
        ensures { Gives (act.directs self.old span word tail.now) result self.new }
    {
        let name = skip_white(tail);
        let is_defined = self.macros.contains(name);
        match word {
            Directive::Define => self.defines(alloc, span, tail),
            Directive::Undef => self.undefines(span, name),
            Directive::Ifdef => self.opens_if(span, name, is_defined),
            Directive::Ifndef => self.opens_if(span, name, !is_defined),
            Directive::Elsif => self.goes_on(span, is_some_name(name), is_defined, false),
            Directive::Else => self.goes_on(span, true, true, true),
            Directive::Endif => self.closes(span),
            Directive::Line => self.lines(span, tail),
            Directive::ToLineEnd | Directive::Alone | Directive::Use => Ok(()),
        }
    }

    /// Carries out a directive in a part that isn't taken.
    pub fn skips(&mut self, span: Span, word: Directive, tail: &[u8]) -> Result<(), LexErr>
        ensures { Gives (act.skips self.old span word tail.now) result self.new }
    {
        let name = skip_white(tail);
        let is_defined = self.macros.contains(name);
        match word {
            Directive::Ifdef | Directive::Ifndef => self.opens(span, Arm::Nested),
            Directive::Elsif => self.goes_on(span, is_some_name(name), is_defined, false),
            Directive::Else => self.goes_on(span, true, true, true),
            Directive::Endif => self.closes(span),
            Directive::Define
            | Directive::Undef
            | Directive::Line
            | Directive::ToLineEnd
            | Directive::Alone
            | Directive::Use => Ok(()),
        }
    }

    /// Carries out a directive that is no use of a macro and may stand where it stands.
    #[tactic(auto, using(crate::proofs::CommandRows::command_rows))]
    pub fn commands(
        &mut self,
        alloc: Global,
        place: Position,
        word: Directive,
        piece: &[u8],
    ) -> Result<(), LexErr>
        requires other { is_use (DirectivePiece word) ≡ false }
        requires bytes { 1 ≤ length piece.now }
        requires within { IsWithin place (length piece.now) }
        ensures { (left : ℕ) → Gives (act.commands left self.old place word piece.now) result self.new }
    {
        let span = word_span(place, piece);
        if place.may_have(word) {
            self.directs(alloc, span, word, tail_of(piece))
        } else {
            Err(LexErr::Directive(span))
        }
    }

    /// Does what a piece does in a part that isn't taken.
    pub fn passes(&mut self, place: Position, kind: Piece, piece: &[u8]) -> Result<(), LexErr>
        requires bytes { 1 ≤ length piece.now }
        requires within { IsWithin place (length piece.now) }
        ensures { Gives (act.passes self.old place kind piece.now) result self.new }
    {
        match kind {
            Piece::Directive(word) => self.skips(word_span(place, piece), word, tail_of(piece)),
            Piece::Blank | Piece::OpenComment | Piece::Name | Piece::Escaped => Ok(()),
            Piece::System | Piece::Symbol | Piece::RealDelay => Ok(()),
            Piece::Number | Piece::Stray => Ok(()),
        }
    }

    /// Does what a piece does in a part that is taken, but for the use of a macro.
    pub fn takes(
        &mut self,
        alloc: Global,
        place: Position,
        kind: Piece,
        piece: &[u8],
    ) -> Result<(), LexErr>
        requires other { is_use kind ≡ false }
        requires kind { kind_in false piece.now ≡ Some kind }
        requires bytes { 1 ≤ length piece.now }
        requires within { IsWithin place (length piece.now) }
        ensures { (left : ℕ) → Gives (act.takes left self.old place kind piece.now) result self.new }
    {
        match kind {
            Piece::Blank => Ok(()),
            Piece::OpenComment => Err(LexErr::OpenComment(open_span(place, piece))),
            Piece::Name => self.adds_name(alloc, place, piece),
            Piece::Escaped => self.adds_escaped(alloc, place, piece),
            Piece::System => self.adds_system(alloc, place, piece),
            Piece::Symbol => self.adds_symbol(alloc, place, piece),
            Piece::RealDelay => self.adds_real_delay(alloc, place, piece),
            Piece::Number => self.adds_number(alloc, place, piece),
            Piece::Directive(word) => self.commands(alloc, place, word, piece),
            Piece::Stray => Err(LexErr::BadByte(first_span(place, piece))),
        }
    }
}
