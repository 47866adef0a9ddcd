//! Tokens, their kinds, and the refusals.
mod refusal;
mod terminal;
mod token;

pub use refusal::LexErr;
pub use terminal::Terminal;
pub use token::{Token, Tokens};
pub use v_syntax::TokenKind;
