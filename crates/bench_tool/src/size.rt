//! `bench_tool size typed|constant TIMES`: reads an expression from standard input, sizes it so many times, or
//! computes it as a constant, prints what it is or why it is refused, and how many microseconds all of it took on
//! standard error.
//!
//! The names are the signals `a`, unsigned, and `s`, signed, both of 8 bits; for a constant they are parameters with
//! the value 9.
mod names;

use crate::failure::Failure;
use crate::input::input;
use crate::size::names::{name, parameters, signals};
use std::alloc::Global;
use std::time::Instant;
use v_lexer::tokens;
use v_syntax::Expr;
use v_tree::expr;
use v_widths::{Scope, Size, WidthErr, constant, typed};

/// What is asked of the expression.
#[derive(Clone, Copy, PartialEq, Eq)]
enum Asked {
    Typed,
    Constant,
}

/// What is asked, and how often.
fn request(words: &[String]) -> Result<(Asked, u32), Failure> {
    let [what, times] = words else {
        return Err(Failure::Words);
    };
    let what = match what.as_str() {
        "typed" => Asked::Typed,
        "constant" => Asked::Constant,
        _ => return Err(Failure::Words),
    };
    match times.parse::<u32>() {
        Ok(times) => Ok((what, times)),
        Err(_) => Err(Failure::Words),
    }
}

/// The expression of a text.
fn expression(alloc: Global, text: &[u8]) -> Result<Expr, Failure> {
    let Ok(found) = tokens(alloc, text) else {
        return Err(Failure::Text);
    };
    if found.len() >= 4_000_000_000 {
        return Err(Failure::Text);
    }
    match expr(alloc, found.as_slice(), 0) {
        Ok((e, end)) => {
            if end == found.len() {
                Ok(e)
            } else {
                Err(Failure::Text)
            }
        }
        Err(_) => Err(Failure::Text),
    }
}

/// The width and the sign of an expression.
fn sized(alloc: Global, e: &Expr, scope: &Scope<'_>, asked: Asked) -> Result<Size, WidthErr> {
    match asked {
        Asked::Typed => {
            let found = typed(alloc, e, scope, 0, false)?;
            Ok(Size {
                width: found.width,
                signed: found.signed,
            })
        }
        Asked::Constant => {
            let found = constant(alloc, e, scope)?;
            Ok(Size {
                width: found.bits.width(),
                signed: found.signed,
            })
        }
    }
}

/// Sizes, prints, and gives the exit status.
pub(crate) fn run(rt: &HostRuntime, words: &[String]) -> Result<u8, Failure> {
    let (asked, times) = request(words)?;
    let text = input(rt)?;
    let e = expression(rt.alloc(), text.as_slice())?;
    let (a, s) = (name(rt.alloc(), b"a")?, name(rt.alloc(), b"s")?);
    let scope = match asked {
        Asked::Typed => signals(rt.alloc(), &a, &s)?,
        Asked::Constant => parameters(rt.alloc(), &a, &s)?,
    };
    let begin = Instant::now(rt)?;
    let mut answer = sized(rt.alloc(), &e, &scope, asked);
    for _ in 1..times {
        answer = sized(rt.alloc(), &e, &scope, asked);
    }
    let end = Instant::now(rt)?;
    eprintln!(rt; "{}", end.duration_since(begin).as_micros())?;
    match answer {
        Ok(size) => {
            println!(rt; "{} bits, signed {}", size.width, size.signed)?;
            Ok(0)
        }
        Err(fault) => {
            println!(rt; "{fault:?}")?;
            Ok(1)
        }
    }
}
