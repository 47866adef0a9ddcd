//! Left sides of assignments (IEEE 1364-2005, A.8.5).
ghost use Rattle.std.specs.Prelude.{◌≡◌, ◌+◌, ◌<◌, ◌≤◌, ◌^◌, length, map, IfOk, Ok};
ghost use Rattle.v_tree.specs.Faults.{Gives};
ghost use Rattle.v_tree.specs.Sites.{site};
ghost use Rattle.v_syntax.specs.PartTree.{left_of, name_left, concat_left, lefts_of};
ghost use Rattle.v_parts.specs.Seen.{seen_left, seen_lefts, Inside};
ghost use Rattle.v_parts.specs.Reading.{name_left_at, concat_left_at, close_left_at, left_at, left_below, list_at};
ghost use Rattle.v_syntax.specs.Tree.{selection_of, selections_of, no_select};

use crate::names::{Read, name};
use loc_base::Name;
use std::alloc::Global;
use v_lexer::types::Token;
use v_syntax::{Left, Select, Site};
use v_tree::{Terminal, expect, lower, selects, site_of, stands};

/// Levels for the indexes of a left side or an event, each of which is an expression of its own.
pub const INDEX_LEVELS: u32 = 4097;

fn named(site: Site, name: Name, selects: Vec<Select>) -> Left
    ensures { left_of result ≡ name_left site name (selections_of (map selection_of selects.items)) }
{
    Left::Name {
        site,
        name,
        selects,
    }
}

/// A name without selects.
pub fn bare(alloc: Global, site: Site, name: Name) -> Left
    ensures { left_of result ≡ name_left site name no_select }
{
    let selects = Vec::new(alloc);
    Left::Name {
        site,
        name,
        selects,
    }
}

fn concat(site: Site, parts: Vec<Left>) -> Left
    ensures { left_of result ≡ concat_left site (lefts_of (map left_of parts.items)) }
{
    Left::Concat { site, parts }
}

/// `NAME select? select?`
#[tactic(auto, unfolding(crate::specs::Reading::name_left_at))]
fn name_left(alloc: Global, tokens: &[Token], at: usize, nesting_left: u32) -> Read<Left>
    requires short { length tokens.now < 2 ^ 32 }
    requires inside { at ≤ length tokens.now }
    ensures gives { Gives seen_left result (name_left_at tokens.now nesting_left at) }
    ensures inside { IfOk result (Inside tokens.now) }
{
    let (name, next) = name(alloc, tokens, at)?;
    let found = selects(alloc, tokens, next, nesting_left, INDEX_LEVELS)?;
    let site = site_of(tokens, at, found.end);
    Ok((named(site, name, found.tree), found.end))
}

/// `'}'` behind the left sides of a list that begins at `from`.
#[tactic(auto, unfolding(crate::specs::Reading::close_left_at))]
fn close_left(tokens: &[Token], from: usize, parts: Vec<Left>, at: usize) -> Read<Left>
    requires before { from < 2 ^ 32 }
    ensures gives { Gives seen_left result (close_left_at tokens.now from (map left_of parts.items) at) }
    ensures inside { IfOk result (Inside tokens.now) }
{
    let end = expect(tokens, Terminal::CloseBrace, at)?;
    let site = site_of(tokens, from, end);
    Ok((concat(site, parts), end))
}

/// `'{' left,+ '}' | NAME select? select?`
#[tactic(auto, using(crate::proofs::LeftSteps::left_over), unfolding(crate::specs::Reading::left_with))]
#[cycle(left)]
pub fn left(alloc: Global, tokens: &[Token], at: usize, nesting_left: u32) -> Read<Left>
    requires short { length tokens.now < 2 ^ 32 }
    requires inside { at ≤ length tokens.now }
    ensures gives { Gives seen_left result (left_at tokens.now nesting_left at) }
    ensures inside { IfOk result (Inside tokens.now) }
{
    if stands(tokens, at, Terminal::OpenBrace) {
        return left_concat(alloc, tokens, at, nesting_left);
    }
    name_left(alloc, tokens, at, nesting_left)
}

/// `'{' left,+ '}'`
#[tactic(auto, using(crate::proofs::LeftSteps::left_below_less), unfolding(crate::specs::Reading::concat_left_at))]
#[cycle(left)]
fn left_concat(alloc: Global, tokens: &[Token], at: usize, nesting_left: u32) -> Read<Left>
    requires short { length tokens.now < 2 ^ 32 }
    requires inside { at < length tokens.now }
    ensures gives { Gives seen_left result (concat_left_at tokens.now nesting_left (left_below tokens.now nesting_left) at) }
    ensures inside { IfOk result (Inside tokens.now) }
{
    let nesting_left = lower(nesting_left, at)?;
    let (parts, end) = lefts(alloc, tokens, at + 1, nesting_left)?;
    close_left(tokens, at, parts, end)
}

/// `left,+`
#[tactic(auto, unfolding(crate::specs::Reading::list_at))]
#[cycle(left)]
fn lefts(alloc: Global, tokens: &[Token], at: usize, nesting_left: u32) -> Read<Vec<Left>>
    requires short { length tokens.now < 2 ^ 32 }
    requires inside { at ≤ length tokens.now }
    ensures gives { Gives seen_lefts result (list_at tokens.now (left_at tokens.now nesting_left) at) }
    ensures inside { IfOk result (Inside tokens.now) }
{
    let mut parts = Vec::new(alloc);
    let (first, mut end) = left(alloc, tokens, at, nesting_left)?;
    parts.push(first)?;
    for _ in 0..tokens.len() {
        if !stands(tokens, end, Terminal::Comma) {
            return Ok((parts, end));
        }
        let (part, next) = left(alloc, tokens, end + 1, nesting_left)?;
        parts.push(part)?;
        end = next;
    }
    Ok((parts, end))
}
