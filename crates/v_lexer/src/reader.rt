//! Reading a text piece by piece, and the texts of the macros that it uses.
ghost use Rattle.std.specs.Prelude.{◌≡◌, ◌≤◌, ℕ, Some, Result, IfOk, IfErr, MatchResult, length, drop, List};
ghost use Rattle.v_lexer.specs.declared.types.refusal.LexErr.{LexErr};
ghost use Rattle.v_lexer.specs.Acts as act;
ghost use Rattle.v_lexer.specs.Conditionals.{is_skipping};
ghost use Rattle.v_lexer.specs.Lexeme.{Lexeme};
ghost use Rattle.v_lexer.specs.Outcomes.{is_use as piece_is_use};
ghost use Rattle.v_lexer.specs.Outcomes.{IsWithin, ReadsTo, Turns, UnlessNoMemory};
ghost use Rattle.v_lexer.specs.Pieces.{kind_in};
ghost use Rattle.v_lexer.specs.Tokens.{HasFault, HasOutcome, HasTokens, mark_size};

use crate::bytes::{behind, first_of};
use crate::commands::word_span;
use crate::directives::Directive;
use crate::pieces::{Piece, piece_at};
use crate::position::Position;
use crate::state::{State, nowhere};
use crate::types::{LexErr, Tokens};
use loc_base::Bytes;
use std::alloc::Global;

/// How many levels of macros may open in one another.
const DEEPEST: u32 = 64;

/// The byte-order mark of a text in UTF-8.
const MARK: [u8; 3] = [0xEF, 0xBB, 0xBF];

/// How many bytes of a text are passed over before its first piece.
fn mark_size(text: &[u8]) -> usize
    ensures size { result ≡ mark_size text.now }
    ensures within { result ≤ length text.now }
    ensures small { result ≤ 3 }
{
    if text.starts_with(&MARK) { 3 } else { 0 }
}

/// Whether a piece is the use of a macro.
fn is_use(kind: Piece) -> bool
    ensures { result ≡ piece_is_use kind }
{
    match kind {
        Piece::Directive(word) => matches!(word, Directive::Use),
        Piece::Blank | Piece::OpenComment | Piece::Name | Piece::Escaped => false,
        Piece::System | Piece::Symbol | Piece::RealDelay => false,
        Piece::Number | Piece::Stray => false,
    }
}

impl State {
    /// Reads a text from a place on, where `left` more levels of macros may open.
    #[cycle(reading)]
    fn read(&mut self, alloc: Global, text: &[u8], place: Position, left: u32) -> Result<(), LexErr>
        requires { IsWithin place (length text.now) }
        ensures { ReadsTo left self.old place text.now result self.new }
    {
        let mut rest = text;
        let mut place = place;
        while let Some((first, tail)) = first_of(rest) {
            let (kind, size) = piece_at(first, tail, self.conditionals.is_skipping());
            let (piece, others) = rest.split_at(size);
            self.turn(alloc, place, kind, piece, left)?;
            place = place.past(piece);
            rest = others;
        }
        Ok(())
    }

    /// Does what a piece does.
    #[cycle(reading)]
    fn turn(
        &mut self,
        alloc: Global,
        place: Position,
        kind: Piece,
        piece: &[u8],
        left: u32,
    ) -> Result<(), LexErr>
        requires kind { kind_in (is_skipping self.old.conditionals) piece.now ≡ Some kind }
        requires bytes { 1 ≤ length piece.now }
        requires within { IsWithin place (length piece.now) }
        ensures { Turns left place piece.now (act.does left self.old place kind piece.now) result self.new }
    {
        if self.conditionals.is_skipping() {
            self.passes(place, kind, piece)
        } else if is_use(kind) {
            self.uses(alloc, place, piece, left)
        } else {
            self.takes(alloc, place, kind, piece)
        }
    }

    /// Reads the text of the macro that a piece uses.
    #[cycle(reading)]
    fn uses(
        &mut self,
        alloc: Global,
        place: Position,
        piece: &[u8],
        left: u32,
    ) -> Result<(), LexErr>
        requires bytes { 1 ≤ length piece.now }
        requires within { IsWithin place (length piece.now) }
        ensures { Turns left place piece.now (act.uses left self.old (act.word_span place piece.now) (drop 1 piece.now)) result self.new }
    {
        let span = word_span(place, piece);
        match self.macros.text(behind(piece, 1)) {
            None => Err(LexErr::Directive(span)),
            Some(text) => {
                if left == 0 {
                    return Err(LexErr::MacroDepth(span));
                }
                if self.macro_bytes_left < text.len() {
                    return Err(LexErr::TooLong(nowhere()));
                }
                let body = Bytes::copy_of(alloc, text)?;
                self.macro_bytes_left -= body.len();
                self.read(alloc, body.as_slice(), place.inside(piece), left - 1)
            }
        }
    }
}

/// The tokens of a text, with its compiler directives carried out.
pub fn tokens(alloc: Global, text: &[u8]) -> Result<Tokens, LexErr>
    ensures read { IfOk result (HasTokens text.now) }
    ensures whole { (tokens : List Lexeme) → HasTokens text.now tokens → MatchResult result (λ found. found ≡ tokens) (λ fault. UnlessNoMemory fault ⊥) }
    ensures refused { IfErr result (λ fault. UnlessNoMemory fault (HasFault text.now fault)) }
    ensures first { (fault : LexErr) → HasFault text.now fault → MatchResult result (λ tokens. ⊥) (λ found. UnlessNoMemory found (found ≡ fault)) }
{
    if text.len() > 16_777_216 {
        return Err(LexErr::TooLong(nowhere()));
    }
    let mut state = State::new(alloc);
    let size = mark_size(text);
    let begin = Position::Text {
        from: size as u32,
        line: 1,
        fresh: true,
    };
    state.read(alloc, behind(text, size), begin, DEEPEST)?;
    match state.conditionals.outermost() {
        Some(first) => Err(LexErr::OpenIf(first.opener)),
        None => Ok(state.tokens),
    }
}

/// A text has one outcome only: its tokens, or its first fault. It takes no time.
pub fn one_outcome()
    ensures { (text : List ℕ) (a b : Result (List Lexeme) LexErr) → HasOutcome text a → HasOutcome text b → a ≡ b }
{}

/// A text has 2,000,000 tokens at most. It takes no time.
pub fn few_tokens()
    ensures { (text : List ℕ) (tokens : List Lexeme) → HasTokens text tokens → length tokens ≤ 2000000 }
{}
