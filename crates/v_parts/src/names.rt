//! Names, ranges, delays, left sides and expressions (IEEE 1364-2005, A.2, A.6, A.8.5 and A.9.3).
ghost use Rattle.std.specs.Prelude.{◌≡◌, ◌+◌, ◌<◌, ◌≤◌, ◌^◌, length, IfOk};
ghost use Rattle.v_tree.specs.Faults.{Gives};
ghost use Rattle.v_tree.specs.Marks.{mark_at};
ghost use Rattle.v_lexer.specs.declared.types.terminal.Terminal.TheVariants as marks;
ghost use Rattle.v_parts.specs.Seen.{as_is, seen_value, seen_value_if, seen_range, seen_range_if, seen_delay, seen_delay_if, Inside};
ghost use Rattle.v_parts.specs.Reading.{name_at, identifier_at, value_at, equals_at, range_at, parens_delay_at, number_delay_at, name_delay_at, delay_at, optional_at};

use loc_base::Name;
use std::alloc::Global;
use v_lexer::types::Token;
use v_syntax::{Delay, Expr, Identifier, Range};
use v_tree::{
    Fault, Stop, Terminal, expect, lower, name_of, no_place, number_of, read_expression, site_of,
    stands,
};

/// A part of the tree, and the place behind its tokens.
pub type Read<T> = Result<(T, usize), Stop>;

#[tactic(auto, using(crate::proofs::Marks::is_mark), unfolding(crate::specs::Reading::name_at))]
pub fn name(alloc: Global, tokens: &[Token], at: usize) -> Read<Name>
    requires short { length tokens.now < 2 ^ 32 }
    ensures gives { Gives as_is result (name_at tokens.now at) }
    ensures inside { IfOk result (Inside tokens.now) }
{
    if !stands(tokens, at, Terminal::Name) {
        return Err(Stop::Fault(no_place(tokens, at)));
    }
    Ok((name_of(alloc, tokens, at)?, at + 1))
}

#[tactic(auto, unfolding(crate::specs::Reading::identifier_at))]
pub fn identifier(alloc: Global, tokens: &[Token], at: usize) -> Read<Identifier>
    requires short { length tokens.now < 2 ^ 32 }
    requires inside { at ≤ length tokens.now }
    ensures gives { Gives as_is result (identifier_at tokens.now at) }
    ensures inside { IfOk result (Inside tokens.now) }
{
    let (name, end) = name(alloc, tokens, at)?;
    let site = site_of(tokens, at, end);
    Ok((Identifier { site, name }, end))
}

/// An expression without wildcard digits.
#[tactic(auto, using(crate::proofs::Marks::is_mark), unfolding(crate::specs::Reading::value_at))]
pub fn value(alloc: Global, tokens: &[Token], at: usize, nesting_left: u32) -> Read<Expr>
    requires short { length tokens.now < 2 ^ 32 }
    requires inside { at ≤ length tokens.now }
    ensures gives { Gives seen_value result (value_at tokens.now nesting_left at) }
    ensures inside { IfOk result (Inside tokens.now) }
{
    if stands(tokens, at, Terminal::Wild) {
        return Err(Stop::Fault(Fault::Unsupported(at)));
    }
    let found = read_expression(alloc, tokens, at, nesting_left)?;
    Ok((found.tree, found.end))
}

/// `'=' expr`, where an equals sign stands.
#[tactic(auto, unfolding(crate::specs::Reading::optional_at, crate::specs::Reading::equals_at))]
pub fn value_if(alloc: Global, tokens: &[Token], at: usize, nesting_left: u32) -> Read<Option<Expr>>
    requires short { length tokens.now < 2 ^ 32 }
    requires inside { at ≤ length tokens.now }
    ensures gives { Gives seen_value_if result (optional_at tokens.now marks.Equals (equals_at tokens.now nesting_left) at) }
    ensures inside { IfOk result (Inside tokens.now) }
{
    if !stands(tokens, at, Terminal::Equals) {
        return Ok((None, at));
    }
    let next = expect(tokens, Terminal::Equals, at)?;
    let (value, end) = value(alloc, tokens, next, nesting_left)?;
    Ok((Some(value), end))
}

/// `'[' expr ':' expr ']'`
#[tactic(auto, unfolding(crate::specs::Reading::range_at))]
pub fn range(alloc: Global, tokens: &[Token], at: usize, nesting_left: u32) -> Read<Range>
    requires short { length tokens.now < 2 ^ 32 }
    requires inside { at < length tokens.now }
    ensures gives { Gives seen_range result (range_at tokens.now nesting_left at) }
    ensures inside { IfOk result (Inside tokens.now) }
{
    let nesting_left = lower(nesting_left, at)?;
    let (left, colon) = value(alloc, tokens, at + 1, nesting_left)?;
    let next = expect(tokens, Terminal::Colon, colon)?;
    let (right, close) = value(alloc, tokens, next, nesting_left)?;
    let end = expect(tokens, Terminal::CloseBracket, close)?;
    let site = site_of(tokens, at, end);
    Ok((Range { site, left, right }, end))
}

/// `'[' expr ':' expr ']'`, where a bracket stands.
#[tactic(auto, unfolding(crate::specs::Reading::optional_at))]
pub fn range_if(
    alloc: Global,
    tokens: &[Token],
    at: usize,
    nesting_left: u32,
) -> Read<Option<Range>>
    requires short { length tokens.now < 2 ^ 32 }
    requires inside { at ≤ length tokens.now }
    ensures gives { Gives seen_range_if result (optional_at tokens.now marks.OpenBracket (range_at tokens.now nesting_left) at) }
    ensures inside { IfOk result (Inside tokens.now) }
{
    if !stands(tokens, at, Terminal::OpenBracket) {
        return Ok((None, at));
    }
    let (range, end) = range(alloc, tokens, at, nesting_left)?;
    Ok((Some(range), end))
}

/// `'(' expr ')'` behind the `#` at `from`.
#[tactic(auto, unfolding(crate::specs::Reading::parens_delay_at))]
fn parens_delay(
    alloc: Global,
    tokens: &[Token],
    from: usize,
    at: usize,
    nesting_left: u32,
) -> Read<Delay>
    requires short { length tokens.now < 2 ^ 32 }
    requires before { from < 2 ^ 32 }
    requires inside { at < length tokens.now }
    ensures gives { Gives seen_delay result (parens_delay_at tokens.now nesting_left from at) }
    ensures inside { IfOk result (Inside tokens.now) }
{
    let nesting_left = lower(nesting_left, at)?;
    let (value, close) = value(alloc, tokens, at + 1, nesting_left)?;
    let end = expect(tokens, Terminal::Close, close)?;
    let site = site_of(tokens, from, end);
    Ok((Delay::Parens { site, value }, end))
}

/// `NUMBER` behind the `#` at `from`.
#[tactic(auto, unfolding(crate::specs::Reading::number_delay_at))]
fn number_delay(alloc: Global, tokens: &[Token], from: usize, at: usize) -> Read<Delay>
    requires short { length tokens.now < 2 ^ 32 }
    requires before { from < 2 ^ 32 }
    requires inside { at < length tokens.now }
    requires number { mark_at tokens.now at ≡ marks.Number }
    ensures gives { Gives seen_delay result (number_delay_at tokens.now from at) }
    ensures inside { IfOk result (Inside tokens.now) }
{
    let number = number_of(alloc, tokens, at)?;
    let site = site_of(tokens, from, at + 1);
    Ok((Delay::Number { site, number }, at + 1))
}

/// `NAME` behind the `#` at `from`.
#[tactic(auto, unfolding(crate::specs::Reading::name_delay_at))]
fn name_delay(alloc: Global, tokens: &[Token], from: usize, at: usize) -> Read<Delay>
    requires short { length tokens.now < 2 ^ 32 }
    requires before { from < 2 ^ 32 }
    ensures gives { Gives seen_delay result (name_delay_at tokens.now from at) }
    ensures inside { IfOk result (Inside tokens.now) }
{
    let (name, end) = name(alloc, tokens, at)?;
    let site = site_of(tokens, from, end);
    Ok((Delay::Name { site, name }, end))
}

/// `'#' (NUMBER | NAME | '(' expr ')')`
#[tactic(auto, using(crate::proofs::Marks::is_mark), unfolding(crate::specs::Reading::delay_at, crate::specs::Reading::behind_hash_at))]
pub fn delay(alloc: Global, tokens: &[Token], at: usize, nesting_left: u32) -> Read<Delay>
    requires short { length tokens.now < 2 ^ 32 }
    requires inside { at ≤ length tokens.now }
    ensures gives { Gives seen_delay result (delay_at tokens.now nesting_left at) }
    ensures inside { IfOk result (Inside tokens.now) }
{
    let first = expect(tokens, Terminal::Hash, at)?;
    if stands(tokens, first, Terminal::Number) {
        return number_delay(alloc, tokens, at, first);
    }
    if stands(tokens, first, Terminal::Open) {
        return parens_delay(alloc, tokens, at, first, nesting_left);
    }
    name_delay(alloc, tokens, at, first)
}

#[tactic(auto, unfolding(crate::specs::Reading::optional_at))]
pub fn delay_if(
    alloc: Global,
    tokens: &[Token],
    at: usize,
    nesting_left: u32,
) -> Read<Option<Delay>>
    requires short { length tokens.now < 2 ^ 32 }
    requires inside { at ≤ length tokens.now }
    ensures gives { Gives seen_delay_if result (optional_at tokens.now marks.Hash (delay_at tokens.now nesting_left) at) }
    ensures inside { IfOk result (Inside tokens.now) }
{
    if !stands(tokens, at, Terminal::Hash) {
        return Ok((None, at));
    }
    let (delay, end) = delay(alloc, tokens, at, nesting_left)?;
    Ok((Some(delay), end))
}
