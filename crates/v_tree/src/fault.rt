//! Why tokens have no tree, and where.
ghost use Rattle.std.specs.Prelude.{◌≡◌};
ghost use Rattle.v_tree.specs.Sites.{place_span};
ghost use Rattle.v_tree.specs.Faults.{error_of, no_place};
ghost use Rattle.v_tree.specs.declared.fault.Stop.TheVariants.{NoMemory as OutOfMemory};

use crate::input::place_span;
use crate::mark::{mark_at, same};
use loc_base::{NoMemory, Span};
use std::alloc::{AllocError, AllocFailed};
use thiserror::Error;
use v_lexer::types::{Terminal, Token};

/// Why tokens have no tree, and where: the span of the token that has no place, or of the end.
#[derive(Clone, Copy, Debug, PartialEq, Eq, Error)]
pub enum ParseErr {
    /// No production has the token here, or the tokens end too soon.
    #[error("a token that can't stand here, or a text that ends too soon")]
    Unexpected(Span),
    /// The token belongs to a form of the standard that this profile leaves out.
    #[error("a form of Verilog that is left out")]
    Unsupported(Span),
    /// The token makes the text nest too deep, or an expression of too many levels.
    #[error("nesting deeper than 256, or an expression of more than 4,096 levels")]
    Deep(Span),
    /// Want of memory.
    #[error("out of memory")]
    NoMemory,
}

/// Why tokens have no tree, and the number of the token that has no place; that of the end is the number of tokens.
#[derive(Clone, Copy, Debug, Error)]
pub enum Fault {
    /// No production has the token here.
    #[error("a token that can't stand here, or a text that ends too soon")]
    Unexpected(usize),
    /// The token belongs to a form that this profile leaves out.
    #[error("a form of Verilog that is left out")]
    Unsupported(usize),
    /// The token goes past a limit.
    #[error("nesting deeper than 256, or an expression of more than 4,096 levels")]
    Deep(usize),
}

/// Why a reader stopped.
#[derive(Clone, Copy, Debug, Error)]
pub enum Stop {
    #[error(transparent)]
    Fault(Fault),
    #[error("out of memory")]
    NoMemory,
}

impl From<AllocError> for Stop {
    ghost from_gives = { λ _ e. e ≡ OutOfMemory };

    fn from(_error: AllocError) -> Stop {
        Stop::NoMemory
    }
}

impl<T: Drop> From<AllocFailed<T>> for Stop {
    ghost from_gives = { λ _ e. e ≡ OutOfMemory };

    fn from(_failed: AllocFailed<T>) -> Stop {
        Stop::NoMemory
    }
}

impl From<NoMemory> for Stop {
    ghost from_gives = { λ _ e. e ≡ OutOfMemory };

    fn from(_error: NoMemory) -> Stop {
        Stop::NoMemory
    }
}

#[tactic(auto, unfolding(crate::specs::Faults::no_place))]
/// The fault of a token that no production has here.
pub fn no_place(tokens: &[Token], at: usize) -> Fault
    ensures { result ≡ no_place tokens.now at }
{
    let found = mark_at(tokens, at);
    if same(found, Terminal::Refused) {
        Fault::Unsupported(at)
    } else if same(found, Terminal::Wild) {
        Fault::Unsupported(at)
    } else {
        Fault::Unexpected(at)
    }
}

/// The error that shows why a reader stopped.
pub fn error_of(tokens: &[Token], stop: Stop) -> ParseErr
    ensures { result ≡ error_of tokens.now stop }
{
    match stop {
        Stop::Fault(Fault::Unexpected(at)) => ParseErr::Unexpected(place_span(tokens, at)),
        Stop::Fault(Fault::Unsupported(at)) => ParseErr::Unsupported(place_span(tokens, at)),
        Stop::Fault(Fault::Deep(at)) => ParseErr::Deep(place_span(tokens, at)),
        Stop::NoMemory => ParseErr::NoMemory,
    }
}
