//! Continuous assignments, gates and module instances (IEEE 1364-2005, clauses 6, 7 and 12).
ghost use Rattle.std.specs.Prelude.{◌<◌, ◌≤◌, ◌^◌, length, IfOk};
ghost use Rattle.v_tree.specs.Faults.{Gives};
ghost use Rattle.v_parts.specs.Seen.{Inside};
ghost use Rattle.v_parts.specs.ItemSeen.{seen_item};
ghost use Rattle.v_declarations.specs.StructureReading.{structure_at};

use crate::assigns::assigns;
use crate::gates::{gates, is_gate};
use crate::instances::instances;
use std::alloc::Global;
use v_lexer::types::Token;
use v_parts::Read;
use v_syntax::Item;
use v_tree::{Terminal, mark_at, stands};

/// A continuous assignment, gates or module instances. Another token has no place.
#[tactic(auto, unfolding(crate::specs::StructureReading::structure_at))]
pub fn structure(alloc: Global, tokens: &[Token], at: usize, nesting_left: u32) -> Read<Item>
    requires short { length tokens.now < 2 ^ 32 }
    requires inside { at ≤ length tokens.now }
    ensures gives { Gives seen_item result (structure_at tokens.now nesting_left at) }
    ensures inside { IfOk result (Inside tokens.now) }
{
    if stands(tokens, at, Terminal::Assign) {
        return assigns(alloc, tokens, at, nesting_left);
    }
    if is_gate(mark_at(tokens, at)) {
        return gates(alloc, tokens, at, nesting_left);
    }
    instances(alloc, tokens, at, nesting_left)
}
