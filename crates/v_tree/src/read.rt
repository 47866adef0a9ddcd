//! The reading of expressions (IEEE 1364-2005, clause 5): recursive descent with one token of look-ahead, binary operators
//! by precedence climbing.
ghost use Rattle.std.specs.Prelude.{◌+◌, ◌<◌, ◌≤◌, ◌^◌, length, IfOk};
ghost use Rattle.v_syntax.specs.Tree.{tree_of};
ghost use Rattle.v_tree.specs.Faults.{Gives};
ghost use Rattle.v_tree.specs.Found.{seen, seen_parts, seen_select, seen_selects, Sized, SizedParts, SizedSelect, SizedSelects};
ghost use Rattle.v_tree.specs.Reading.{readers, below, climb, selects_at, select_at, parens_at, braces_at, parts_from, system_at, unary_at};

use crate::close::{
    above, close_bit, close_concat, close_parens, close_part, close_repeat, close_system,
    conditional, joined, name, negated, number,
};
use crate::fault::{Stop, no_place};
use crate::found::Found;
use crate::input::{expect, lower, stands};
use crate::mark::mark_at;
use crate::operator_of::{binary_of, part_of, strength, system_of, unary_of};
use std::alloc::Global;
use v_lexer::types::{Terminal, Token};
use v_syntax::{Expr, Select, SystemFunction, Unary};

/// An expression, where `nesting_left` levels of nesting and `levels_left` levels of operators are left to it.
#[tactic(auto, using(crate::proofs::StepLemmas::whole_over, crate::proofs::StepLemmas::below_less), unfolding(crate::specs::Reading::whole_with, crate::specs::Reading::question_at))]
#[cycle(read)]
pub fn whole(
    alloc: Global,
    tokens: &[Token],
    at: usize,
    nesting_left: u32,
    levels_left: u32,
) -> Result<Found<Expr>, Stop>
    requires short { length tokens.now < 2 ^ 32 }
    requires inside { at ≤ length tokens.now }
    ensures gives { Gives seen result ((readers tokens.now nesting_left).whole levels_left at) }
    ensures sized { IfOk result (Sized tokens.now levels_left) }
{
    let condition = climb(alloc, tokens, at, nesting_left, levels_left, 1)?;
    if !stands(tokens, condition.end, Terminal::Question) {
        return Ok(condition);
    }
    let nesting_left = lower(nesting_left, condition.end)?;
    let levels_left = above(levels_left, condition.levels, condition.end)?;
    let then = whole(alloc, tokens, condition.end + 1, nesting_left, levels_left)?;
    let colon = expect(tokens, Terminal::Colon, then.end)?;
    let other = whole(alloc, tokens, colon, nesting_left, levels_left)?;
    conditional(alloc, tokens, at, condition, then, other)
}

/// Operands with binary operators of a level from `least` on between them.
#[tactic(auto, using(crate::proofs::StepLemmas::climb_more, crate::proofs::StepLemmas::chain_more, crate::proofs::StepLemmas::climb_eleven, crate::proofs::StepLemmas::chain_zero, crate::proofs::PlaceLemmas::binary_inside))]
#[cycle(read)]
fn climb(
    alloc: Global,
    tokens: &[Token],
    at: usize,
    nesting_left: u32,
    levels_left: u32,
    least: u8,
) -> Result<Found<Expr>, Stop>
    requires short { length tokens.now < 2 ^ 32 }
    requires inside { at ≤ length tokens.now }
    requires some { 1 ≤ least }
    requires levels { least ≤ 12 }
    ensures gives { Gives seen result (climb tokens.now (readers tokens.now nesting_left).operand 12 least levels_left at) }
    ensures sized { IfOk result (Sized tokens.now levels_left) }
{
    let mut left = operand(alloc, tokens, at, nesting_left, levels_left)?;
    for _ in 0..tokens.len() {
        let operator = match binary_of(mark_at(tokens, left.end)) {
            Some(operator) => operator,
            None => return Ok(left),
        };
        let level = strength(operator);
        if level < least {
            return Ok(left);
        }
        let less = above(levels_left, left.levels, left.end)?;
        let right = climb(alloc, tokens, left.end + 1, nesting_left, less, level + 1)?;
        left = joined(alloc, tokens, at, operator, left, right)?;
    }
    Ok(left)
}

#[tactic(auto, using(crate::proofs::StepLemmas::operand_over, crate::proofs::PlaceLemmas::is_mark, crate::proofs::PlaceLemmas::unary_inside, crate::proofs::PlaceLemmas::system_inside), unfolding(crate::specs::Reading::operand_with, crate::specs::Reading::plain_at, crate::specs::Reading::name_at))]
#[cycle(read)]
fn operand(
    alloc: Global,
    tokens: &[Token],
    at: usize,
    nesting_left: u32,
    levels_left: u32,
) -> Result<Found<Expr>, Stop>
    requires short { length tokens.now < 2 ^ 32 }
    requires inside { at ≤ length tokens.now }
    ensures gives { Gives seen result ((readers tokens.now nesting_left).operand levels_left at) }
    ensures sized { IfOk result (Sized tokens.now levels_left) }
{
    let mark = mark_at(tokens, at);
    if let Some(operator) = unary_of(mark) {
        return unary(alloc, tokens, at, nesting_left, levels_left, operator);
    }
    if let Some(function) = system_of(mark) {
        return system(alloc, tokens, at, nesting_left, levels_left, function);
    }
    if stands(tokens, at, Terminal::Number) {
        return number(alloc, tokens, at);
    }
    if stands(tokens, at, Terminal::Name) {
        let selects = selects(alloc, tokens, at + 1, nesting_left, levels_left)?;
        return name(alloc, tokens, at, selects);
    }
    if stands(tokens, at, Terminal::Open) {
        return parens(alloc, tokens, at, nesting_left, levels_left);
    }
    if stands(tokens, at, Terminal::OpenBrace) {
        return braces(alloc, tokens, at, nesting_left, levels_left);
    }
    Err(Stop::Fault(no_place(tokens, at)))
}

#[tactic(auto, using(crate::proofs::StepLemmas::below_less), unfolding(crate::specs::Reading::unary_at))]
#[cycle(read)]
fn unary(
    alloc: Global,
    tokens: &[Token],
    at: usize,
    nesting_left: u32,
    levels_left: u32,
    operator: Unary,
) -> Result<Found<Expr>, Stop>
    requires short { length tokens.now < 2 ^ 32 }
    requires inside { at < length tokens.now }
    ensures gives { Gives seen result (unary_at tokens.now nesting_left (below tokens.now nesting_left).operand operator levels_left at) }
    ensures sized { IfOk result (Sized tokens.now levels_left) }
{
    let nesting_left = lower(nesting_left, at)?;
    let levels_left = lower(levels_left, at)?;
    let inner = operand(alloc, tokens, at + 1, nesting_left, levels_left)?;
    negated(alloc, tokens, at, operator, inner)
}

#[tactic(auto, using(crate::proofs::StepLemmas::below_less), unfolding(crate::specs::Reading::system_at))]
#[cycle(read)]
fn system(
    alloc: Global,
    tokens: &[Token],
    at: usize,
    nesting_left: u32,
    levels_left: u32,
    function: SystemFunction,
) -> Result<Found<Expr>, Stop>
    requires short { length tokens.now < 2 ^ 32 }
    requires inside { at < length tokens.now }
    ensures gives { Gives seen result (system_at tokens.now nesting_left (below tokens.now nesting_left).whole function levels_left at) }
    ensures sized { IfOk result (Sized tokens.now levels_left) }
{
    let nesting_left = lower(nesting_left, at)?;
    let levels_left = lower(levels_left, at)?;
    let open = expect(tokens, Terminal::Open, at + 1)?;
    let inner = whole(alloc, tokens, open, nesting_left, levels_left)?;
    close_system(alloc, tokens, at, function, inner)
}

#[tactic(auto, using(crate::proofs::StepLemmas::below_less), unfolding(crate::specs::Reading::parens_at))]
#[cycle(read)]
fn parens(
    alloc: Global,
    tokens: &[Token],
    at: usize,
    nesting_left: u32,
    levels_left: u32,
) -> Result<Found<Expr>, Stop>
    requires short { length tokens.now < 2 ^ 32 }
    requires inside { at < length tokens.now }
    ensures gives { Gives seen result (parens_at tokens.now nesting_left (below tokens.now nesting_left).whole levels_left at) }
    ensures sized { IfOk result (Sized tokens.now levels_left) }
{
    let nesting_left = lower(nesting_left, at)?;
    let inner = whole(alloc, tokens, at + 1, nesting_left, levels_left)?;
    close_parens(alloc, tokens, at, inner)
}

#[tactic(auto, using(crate::proofs::StepLemmas::below_less), unfolding(crate::specs::Reading::braces_at, crate::specs::Reading::repeat_at, crate::specs::Reading::concat_at))]
#[cycle(read)]
fn braces(
    alloc: Global,
    tokens: &[Token],
    at: usize,
    nesting_left: u32,
    levels_left: u32,
) -> Result<Found<Expr>, Stop>
    requires short { length tokens.now < 2 ^ 32 }
    requires inside { at < length tokens.now }
    ensures gives { Gives seen result (braces_at tokens.now nesting_left (below tokens.now nesting_left).whole levels_left at) }
    ensures sized { IfOk result (Sized tokens.now levels_left) }
{
    let nesting_left = lower(nesting_left, at)?;
    let levels_left = lower(levels_left, at)?;
    let first = whole(alloc, tokens, at + 1, nesting_left, levels_left)?;
    if stands(tokens, first.end, Terminal::OpenBrace) {
        let part = whole(alloc, tokens, first.end + 1, nesting_left, levels_left)?;
        let parts = parts_from(alloc, tokens, nesting_left, levels_left, part)?;
        close_repeat(alloc, tokens, at, first, parts)
    } else {
        let parts = parts_from(alloc, tokens, nesting_left, levels_left, first)?;
        close_concat(tokens, at, parts)
    }
}

/// The expressions of a list from its first on.
#[tactic(auto, using(crate::proofs::StepLemmas::more_parts_more, crate::proofs::StepLemmas::more_parts_zero, crate::proofs::StepLemmas::append_parts_none, crate::proofs::StepLemmas::append_parts_one, crate::proofs::StepLemmas::levels_one_more), unfolding(crate::specs::Reading::parts_from))]
#[cycle(read)]
fn parts_from(
    alloc: Global,
    tokens: &[Token],
    nesting_left: u32,
    levels_left: u32,
    first: Found<Expr>,
) -> Result<Found<Vec<Expr>>, Stop>
    requires short { length tokens.now < 2 ^ 32 }
    requires sized { Sized tokens.now levels_left first }
    ensures gives { Gives seen_parts result (parts_from tokens.now (readers tokens.now nesting_left).whole levels_left (tree_of first.tree) first.end) }
    ensures sized { IfOk result (SizedParts tokens.now levels_left) }
{
    let mut parts = Vec::new(alloc);
    let mut levels = first.levels;
    let mut end = first.end;
    parts.push(first.tree)?;
    for _ in 0..tokens.len() {
        if !stands(tokens, end, Terminal::Comma) {
            return Ok(Found {
                tree: parts,
                levels,
                end,
            });
        }
        let next = whole(alloc, tokens, end + 1, nesting_left, levels_left)?;
        levels = levels.max(next.levels);
        end = next.end;
        parts.push(next.tree)?;
    }
    Ok(Found {
        tree: parts,
        levels,
        end,
    })
}

/// At most two selects.
#[tactic(auto, using(crate::proofs::StepLemmas::selects_more, crate::proofs::StepLemmas::selects_zero, crate::proofs::StepLemmas::append_selects_none, crate::proofs::StepLemmas::append_selects_one, crate::proofs::StepLemmas::levels_one_select))]
#[cycle(read)]
pub fn selects(
    alloc: Global,
    tokens: &[Token],
    at: usize,
    nesting_left: u32,
    levels_left: u32,
) -> Result<Found<Vec<Select>>, Stop>
    requires short { length tokens.now < 2 ^ 32 }
    requires inside { at ≤ length tokens.now }
    ensures gives { Gives seen_selects result (selects_at tokens.now nesting_left (below tokens.now nesting_left).whole levels_left 2 at) }
    ensures sized { IfOk result (SizedSelects tokens.now levels_left) }
{
    let mut found = Vec::new(alloc);
    let mut levels = 0;
    let mut end = at;
    for _ in 0..2_u32 {
        if !stands(tokens, end, Terminal::OpenBracket) {
            return Ok(Found {
                tree: found,
                levels,
                end,
            });
        }
        let next = select(alloc, tokens, end, nesting_left, levels_left)?;
        levels = levels.max(next.levels);
        end = next.end;
        found.push(next.tree)?;
    }
    Ok(Found {
        tree: found,
        levels,
        end,
    })
}

#[tactic(auto, using(crate::proofs::StepLemmas::below_less, crate::proofs::PlaceLemmas::part_inside), unfolding(crate::specs::Reading::select_at))]
#[cycle(read)]
pub fn select(
    alloc: Global,
    tokens: &[Token],
    at: usize,
    nesting_left: u32,
    levels_left: u32,
) -> Result<Found<Select>, Stop>
    requires short { length tokens.now < 2 ^ 32 }
    requires inside { at < length tokens.now }
    ensures gives { Gives seen_select result (select_at tokens.now nesting_left (below tokens.now nesting_left).whole levels_left at) }
    ensures sized { IfOk result (SizedSelect tokens.now levels_left) }
{
    let nesting_left = lower(nesting_left, at)?;
    let levels_left = lower(levels_left, at)?;
    let left = whole(alloc, tokens, at + 1, nesting_left, levels_left)?;
    match part_of(mark_at(tokens, left.end)) {
        Some(kind) => {
            let right = whole(alloc, tokens, left.end + 1, nesting_left, levels_left)?;
            close_part(tokens, at, kind, left, right)
        }
        None => close_bit(tokens, at, left),
    }
}
