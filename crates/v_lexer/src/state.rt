//! What the pieces read so far have left, and the tokens that pieces add to it.
ghost use Rattle.std.specs.Prelude.{◌≡◌, ◌≤◌, false, length, Some, if◌then◌else◌};
ghost use Rattle.v_lexer.specs.declared.pieces.Piece.TheVariants as piece_kind;
ghost use Rattle.v_syntax.specs.declared.token_kind.TokenKind.TheVariants as word;
ghost use Rattle.std.specs.List.{list_all};
ghost use Rattle.v_syntax.specs.Bytes as class;
ghost use Rattle.v_lexer.specs.Acts as act;
ghost use Rattle.v_lexer.specs.Outcomes.{Gives, HasSpan, IsWithin};
ghost use Rattle.v_lexer.specs.Pieces.{kind_in};
ghost use Rattle.v_lexer.specs.Text.{IsTokenText};
ghost use Rattle.v_lexer.specs.Words.{is_reserved};
ghost use Rattle.v_lexer.specs.Tokens.{start};

use crate::bytes::{behind, first_of, is_visible};
use crate::conditionals::Conditionals;
use crate::literals::judge;
use crate::macros::Macros;
use crate::position::Position;
use crate::terminals::terminal_of;
use crate::types::{LexErr, Token, Tokens};
use crate::words::{is_reserved, is_system};
use loc_base::{Bytes, Span};
use std::alloc::Global;
use v_syntax::{NumberFault, TokenKind};

/// The macros, the open conditionals and the tokens so far.
#[derive(Drop)]
pub struct State {
    pub macros: Macros,
    pub conditionals: Conditionals,
    pub tokens: Tokens,
    /// How many more bytes of macro texts may be read.
    pub macro_bytes_left: usize,
}

/// The most tokens of a text.
const MOST_TOKENS: usize = 2_000_000;

/// The span of what counts a whole text.
pub fn nowhere() -> Span
    ensures { result ≡ act.nowhere }
{
    Span { from: 0, to: 0 }
}

fn number_refusal(fault: NumberFault, span: Span) -> LexErr
    ensures { result ≡ act.number_refusal fault span }
{
    match fault {
        NumberFault::Malformed => LexErr::BadNumber(span),
        NumberFault::Unknown => LexErr::UnknownValue(span),
        NumberFault::Wide => LexErr::WideNumber(span),
    }
}

/// A reserved word is no name.
fn name_kind(text: &[u8]) -> TokenKind
    ensures { result ≡ if is_reserved text.now then word.Word else word.Name }
{
    if is_reserved(text) {
        TokenKind::Word
    } else {
        TokenKind::Name
    }
}

fn are_visible(bytes: &[u8]) -> bool
    ensures { result ≡ list_all class.is_visible bytes.now }
{
    bytes.iter().all(|byte| is_visible(*byte))
}

/// Whether the bytes behind a backslash are a name.
fn is_escaped_name(name: &[u8]) -> bool
    ensures { result ≡ act.is_escaped_name name.now }
{
    match first_of(name) {
        None => false,
        Some(_) => are_visible(name),
    }
}

impl State {
    /// No macros, no conditionals, no tokens. It takes no memory.
    pub fn new(alloc: Global) -> State
        ensures { result ≡ start }
    {
        State {
            macros: Macros::new(alloc),
            conditionals: Conditionals::new(alloc),
            tokens: Tokens::new(alloc),
            macro_bytes_left: 268_435_456,
        }
    }

    /// Adds a token that a piece of so many bytes gives.
    #[tactic(auto, unfolding(crate::specs::Acts::adds))]
    fn adds(
        &mut self,
        alloc: Global,
        place: Position,
        size: usize,
        kind: TokenKind,
        text: &[u8],
    ) -> Result<(), LexErr>
        requires span { HasSpan place size }
        requires text { IsTokenText kind text.now }
        ensures { Gives (act.adds self.old place size kind text.now) result self.new }
    {
        if self.tokens.len() < MOST_TOKENS {
            let terminal = terminal_of(kind, text);
            let text = Bytes::copy_of(alloc, text)?;
            let token = Token {
                kind,
                terminal,
                span: place.span(size),
                line: place.line(),
                text,
            };
            self.tokens.push(token)?;
            Ok(())
        } else {
            Err(LexErr::TooLong(nowhere()))
        }
    }

    /// Adds a name or a reserved word.
    #[tactic(auto, using(crate::proofs::TextRows::text_rows))]
    pub fn adds_name(&mut self, alloc: Global, place: Position, piece: &[u8]) -> Result<(), LexErr>
        requires kind { kind_in false piece.now ≡ Some piece_kind.Name }
        requires within { IsWithin place (length piece.now) }
        ensures { Gives (act.adds_name self.old place piece.now) result self.new }
    {
        self.adds(alloc, place, piece.len(), name_kind(piece), piece)
    }

    /// Adds an escaped name.
    #[tactic(auto, using(crate::proofs::TextRows::text_rows))]
    pub fn adds_escaped(
        &mut self,
        alloc: Global,
        place: Position,
        piece: &[u8],
    ) -> Result<(), LexErr>
        requires bytes { 1 ≤ length piece.now }
        requires within { IsWithin place (length piece.now) }
        ensures { Gives (act.adds_escaped self.old place piece.now) result self.new }
    {
        let name = behind(piece, 1);
        if is_escaped_name(name) {
            self.adds(alloc, place, piece.len(), TokenKind::Name, name)
        } else {
            Err(LexErr::BadByte(place.span(1)))
        }
    }

    /// Adds the name of a system function.
    #[tactic(auto, using(crate::proofs::TextRows::text_rows))]
    pub fn adds_system(
        &mut self,
        alloc: Global,
        place: Position,
        piece: &[u8],
    ) -> Result<(), LexErr>
        requires within { IsWithin place (length piece.now) }
        ensures { Gives (act.adds_system self.old place piece.now) result self.new }
    {
        if is_system(piece) {
            self.adds(alloc, place, piece.len(), TokenKind::System, piece)
        } else {
            Err(LexErr::BadByte(place.span(1)))
        }
    }

    /// Adds a symbol.
    #[tactic(auto, using(crate::proofs::TextRows::text_rows))]
    pub fn adds_symbol(
        &mut self,
        alloc: Global,
        place: Position,
        piece: &[u8],
    ) -> Result<(), LexErr>
        requires kind { kind_in false piece.now ≡ Some piece_kind.Symbol }
        requires within { IsWithin place (length piece.now) }
        ensures { Gives (act.adds_symbol self.old place piece.now) result self.new }
    {
        self.adds(alloc, place, piece.len(), TokenKind::Symbol, piece)
    }

    /// Adds a `#` and, for the real number directly behind it, the number 0.
    #[tactic(auto, using(crate::proofs::DelayRows::real_delay_rows))]
    pub fn adds_real_delay(
        &mut self,
        alloc: Global,
        place: Position,
        piece: &[u8],
    ) -> Result<(), LexErr>
        requires bytes { 1 ≤ length piece.now }
        requires within { IsWithin place (length piece.now) }
        ensures { Gives (act.adds_real_delay self.old place piece.now) result self.new }
    {
        let hash = "#".as_bytes();
        self.adds(alloc, place, 1, TokenKind::Symbol, hash)?;
        self.adds(
            alloc,
            place.past(hash),
            piece.len() - 1,
            TokenKind::Number,
            "0".as_bytes(),
        )
    }

    /// Adds a number.
    #[tactic(auto, using(crate::proofs::TextRows::text_rows))]
    pub fn adds_number(
        &mut self,
        alloc: Global,
        place: Position,
        piece: &[u8],
    ) -> Result<(), LexErr>
        requires kind { kind_in false piece.now ≡ Some piece_kind.Number }
        requires within { IsWithin place (length piece.now) }
        ensures { Gives (act.adds_number self.old place piece.now) result self.new }
    {
        match judge(piece) {
            Ok(kind) => self.adds(alloc, place, piece.len(), kind, piece),
            Err(fault) => Err(number_refusal(fault, place.span(1))),
        }
    }
}
