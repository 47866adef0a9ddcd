//! What readers take from the tokens.
ghost use Rattle.std.specs.Prelude.{◌≡◌, ◌≢◌, ◌+◌, ◌<◌, ◌≤◌, ◌^◌, length, IfOk, IsTrue, Ok};
ghost use Rattle.v_tree.specs.Sites.{span_at, line_at, site, end_span, place_span};
ghost use Rattle.v_tree.specs.Marks.{mark_at, same};
ghost use Rattle.v_tree.specs.Faults.{Gives};
ghost use Rattle.v_tree.specs.Reading.{expect, lower};
ghost use Rattle.v_lexer.specs.declared.types.terminal.Terminal.TheVariants as marks;

use crate::fault::{Fault, Stop, no_place};
use crate::mark::{mark_at, same};
use loc_base::Span;
use v_lexer::types::{Terminal, Token};
use v_syntax::Site;

#[tactic(auto, unfolding(crate::specs::Sites::span_at))]
fn span_at(tokens: &[Token], at: usize) -> Span
    ensures { result ≡ span_at tokens.now at }
{
    match tokens.get(at) {
        Some(token) => token.span,
        None => Span { from: 0, to: 0 },
    }
}

#[tactic(auto, unfolding(crate::specs::Sites::line_at))]
fn line_at(tokens: &[Token], at: usize) -> u32
    ensures { result ≡ line_at tokens.now at }
{
    match tokens.get(at) {
        Some(token) => token.line,
        None => 0,
    }
}

/// Where the tokens from `from` up to `to` stand.
#[tactic(auto, unfolding(crate::specs::Sites::site))]
pub fn site(tokens: &[Token], from: usize, to: usize) -> Site
    requires { from < 2 ^ 32 }
    ensures { result ≡ site tokens.now from to }
{
    let first = span_at(tokens, from);
    let last = span_at(tokens, to.saturating_sub(1));
    Site {
        span: Span {
            from: first.from,
            to: last.to,
        },
        token: from as u32,
        line: line_at(tokens, from),
    }
}

#[tactic(auto, unfolding(crate::specs::Sites::end_span))]
fn end_span(tokens: &[Token]) -> Span
    ensures { result ≡ end_span tokens.now }
{
    let last = span_at(tokens, tokens.len().saturating_sub(1)).to;
    Span {
        from: last,
        to: last,
    }
}

/// The span of the token of that number, or of the end.
#[tactic(auto, unfolding(crate::specs::Sites::place_span))]
pub fn place_span(tokens: &[Token], at: usize) -> Span
    ensures { result ≡ place_span tokens.now at }
{
    match tokens.get(at) {
        Some(token) => token.span,
        None => end_span(tokens),
    }
}

/// Whether a token of that mark stands there.
#[tactic(auto, using(crate::proofs::PlaceLemmas::found_inside))]
pub fn stands(tokens: &[Token], at: usize, mark: Terminal) -> bool
    requires { mark ≢ marks.Nothing }
    ensures gives { result ≡ same (mark_at tokens.now at) mark }
    ensures inside { IsTrue result → at < length tokens.now }
{
    same(mark_at(tokens, at), mark)
}

/// The place behind a token of that mark.
#[tactic(auto, unfolding(crate::specs::Reading::expect))]
pub fn expect(tokens: &[Token], mark: Terminal, at: usize) -> Result<usize, Stop>
    requires { mark ≢ marks.Nothing }
    ensures gives { Gives (λ n. n) result (expect tokens.now mark at) }
    ensures within { IfOk result (λ n. n ≤ length tokens.now) }
{
    if same(mark_at(tokens, at), mark) {
        Ok(at + 1)
    } else {
        Err(Stop::Fault(no_place(tokens, at)))
    }
}

/// One less, where the number isn't 0 yet; else the token goes past a limit.
pub fn lower(left: u32, at: usize) -> Result<u32, Stop>
    ensures gives { Gives (λ n. n) result (lower left at) }
    ensures less { IfOk result (λ n. n + 1 ≡ left) }
{
    if left == 0 {
        return Err(Stop::Fault(Fault::Deep(at)));
    }
    Ok(left - 1)
}
