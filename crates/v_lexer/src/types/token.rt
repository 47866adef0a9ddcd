use crate::types::terminal::Terminal;
use loc_base::{Bytes, Items, Span};
use std::marker::Model;
use v_syntax::TokenKind;

/// A token and where it stands.
#[derive(Drop)]
pub struct Token {
    pub kind: TokenKind,
    /// What it is to the grammar.
    pub terminal: Terminal,
    /// Where its bytes stand in the text, or the macro's use that stands for it.
    pub span: Span,
    /// The line of the span's first byte, counted from 1.
    pub line: u32,
    /// Its bytes. Those of an escaped identifier are the ones behind the backslash.
    pub text: Bytes,
}

impl Model for Token {
    ghost use Rattle.v_lexer.specs.Lexeme.{Lexeme};

    ghost Value = { Lexeme };

    ghost use Rattle.std.specs.Prelude.{◌≡◌};
    ghost use Rattle.v_lexer.specs.Text.{IsTokenText};
    ghost use Rattle.v_lexer.specs.Terminals.{terminal_of};

    ghost view = { λ t. record { kind = t.kind; span = t.span; line = t.line; text = t.text } };

    ghost invariant = { λ t. IsTokenText t.kind t.text × (t.terminal ≡ terminal_of t.kind t.text) };
}

/// The tokens of a text, in its order.
pub type Tokens = Items<Token>;
