//! Always and initial blocks (IEEE 1364-2005, 9.9 and A.6.2).
ghost use Rattle.std.specs.Prelude.{◌<◌, ◌≤◌, ◌^◌, length, IfOk};
ghost use Rattle.v_tree.specs.Faults.{Gives};
ghost use Rattle.v_parts.specs.Seen.{Inside};
ghost use Rattle.v_parts.specs.ItemSeen.{seen_item};
ghost use Rattle.v_statements.specs.ProcedureReading.{always_at, initial_item_at, procedure_at};

use crate::sensitivity::sensitivity;
use crate::statements::statement;
use crate::{initials, procedure_nodes as nodes};
use std::alloc::Global;
use v_lexer::types::Token;
use v_parts::Read;
use v_syntax::Item;
use v_tree::{Terminal, expect, site_of, stands};

/// `'always' '@' sens stmt`
#[tactic(auto, unfolding(crate::specs::ProcedureReading::always_at))]
fn always(alloc: Global, tokens: &[Token], at: usize, nesting_left: u32) -> Read<Item>
    requires short { length tokens.now < 2 ^ 32 }
    requires inside { at ≤ length tokens.now }
    ensures gives { Gives seen_item result (always_at tokens.now nesting_left at) }
    ensures inside { IfOk result (Inside tokens.now) }
{
    let next = expect(tokens, Terminal::Always, at)?;
    let next = expect(tokens, Terminal::At, next)?;
    let (events, next) = sensitivity(alloc, tokens, next, nesting_left)?;
    let (body, end) = statement(alloc, tokens, next, nesting_left)?;
    let site = site_of(tokens, at, end);
    Ok((nodes::always(site, events, body), end))
}

/// `'initial' initial`
#[tactic(auto, unfolding(crate::specs::ProcedureReading::initial_item_at))]
fn initial(alloc: Global, tokens: &[Token], at: usize, nesting_left: u32) -> Read<Item>
    requires short { length tokens.now < 2 ^ 32 }
    requires inside { at ≤ length tokens.now }
    ensures gives { Gives seen_item result (initial_item_at tokens.now nesting_left at) }
    ensures inside { IfOk result (Inside tokens.now) }
{
    let next = expect(tokens, Terminal::Initial, at)?;
    let (body, end) = initials::initial(alloc, tokens, next, nesting_left)?;
    let site = site_of(tokens, at, end);
    Ok((nodes::initial(site, body), end))
}

/// `'always' '@' sens stmt | 'initial' initial`
#[tactic(auto, unfolding(crate::specs::ProcedureReading::procedure_at))]
pub fn procedure(alloc: Global, tokens: &[Token], at: usize, nesting_left: u32) -> Read<Item>
    requires short { length tokens.now < 2 ^ 32 }
    requires inside { at ≤ length tokens.now }
    ensures gives { Gives seen_item result (procedure_at tokens.now nesting_left at) }
    ensures inside { IfOk result (Inside tokens.now) }
{
    if stands(tokens, at, Terminal::Always) {
        return always(alloc, tokens, at, nesting_left);
    }
    initial(alloc, tokens, at, nesting_left)
}
