ghost use Rattle.std.specs.Prelude.{◌≡◌};
ghost use Rattle.v_lexer.specs.declared.types.refusal.LexErr.TheVariants.{NoMemory as OutOfMemory};

use loc_base::{NoMemory, Span};
use thiserror::Error;

/// Why a text has no tokens, and where: the first piece from the left that has no place.
#[derive(Clone, Copy, Debug, PartialEq, Eq, Error)]
pub enum LexErr {
    /// A byte that begins no token, or a name that isn't known: its first byte.
    #[error("a byte that begins no token, or a system name that isn't known")]
    BadByte(Span),
    /// A block comment that is never closed: its first two bytes.
    #[error("a block comment or an attribute that is never closed")]
    OpenComment(Span),
    /// A number without its base or its digits, or with a digit that the base hasn't: its first byte.
    #[error("a number without its base or its digits, or with a digit that its base doesn't have")]
    BadNumber(Span),
    /// A number with an unknown digit, or with a wildcard digit in base ten: its first byte.
    #[error("a number with an unknown digit, or with a wildcard digit in base ten")]
    UnknownValue(Span),
    /// A number whose size or value isn't within the numbers allowed: its first byte.
    #[error("a number whose size isn't 1 to 128, or whose value needs more than 128 bits (32 without a base)")]
    WideNumber(Span),
    /// A directive that isn't known or has no place, or a use of an undefined macro: the backtick and the name.
    #[error("a directive that isn't known or stands wrong, or a macro that isn't defined")]
    Directive(Span),
    /// A conditional that is open at the end: the first such `` `ifdef`` or `` `ifndef``.
    #[error("a conditional directive that is never closed")]
    OpenIf(Span),
    /// A macro whose expansion is nested too deep: its use in the text.
    #[error("macros that are nested more than 64 levels deep")]
    MacroDepth(Span),
    /// Too many bytes or tokens: 0 to 0.
    #[error("more than 16,777,216 bytes, 2,000,000 tokens, or 268,435,456 bytes of macros")]
    TooLong(Span),
    /// Want of memory.
    #[error("out of memory")]
    NoMemory,
}

impl From<NoMemory> for LexErr {
    ghost from_gives = { λ _ e. e ≡ OutOfMemory };

    fn from(_error: NoMemory) -> LexErr {
        LexErr::NoMemory
    }
}
