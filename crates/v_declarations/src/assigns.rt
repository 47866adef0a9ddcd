//! Continuous assignments (IEEE 1364-2005, 6.1 and A.6.1).
ghost use Rattle.std.specs.Prelude.{◌<◌, ◌≤◌, ◌^◌, length, IfOk};
ghost use Rattle.v_tree.specs.Faults.{Gives};
ghost use Rattle.v_syntax.specs.ItemTree.{PlainAssignment, assignment_of};
ghost use Rattle.v_parts.specs.Seen.{Inside};
ghost use Rattle.v_parts.specs.ItemSeen.{seen_item};
ghost use Rattle.v_declarations.specs.StructureReading.{assignment_at, assigns_at};
ghost use Rattle.v_declarations.specs.StructureSeen.{seen_assignment};

use crate::structure_nodes as nodes;
use std::alloc::Global;
use v_lexer::types::Token;
use v_parts::{PartReader, Read, delay_if, left, listed, value};
use v_syntax::{Item, NetAssignment};
use v_tree::{Terminal, expect, site_of, stands};

/// `left '=' expr`
#[tactic(auto, unfolding(crate::specs::StructureReading::assignment_at))]
fn assignment(alloc: Global, tokens: &[Token], at: usize, nesting_left: u32) -> Read<NetAssignment>
    requires short { length tokens.now < 2 ^ 32 }
    requires inside { at ≤ length tokens.now }
    ensures gives { Gives seen_assignment result (assignment_at tokens.now nesting_left at) }
    ensures inside { IfOk result (Inside tokens.now) }
{
    let (target, equals) = left(alloc, tokens, at, nesting_left)?;
    let next = expect(tokens, Terminal::Equals, equals)?;
    let (value, end) = value(alloc, tokens, next, nesting_left)?;
    let site = site_of(tokens, at, end);
    Ok((
        NetAssignment {
            site,
            target,
            value,
        },
        end,
    ))
}

/// What reads a part of `(left '=' expr),+`.
#[derive(Drop)]
struct AssignmentReader {
    nesting_left: u32,
}

impl PartReader for AssignmentReader {
    type Part = NetAssignment;

    ghost Plain = { PlainAssignment };

    ghost plain = { assignment_of };

    ghost part_at = { λ reader tokens. assignment_at tokens reader.nesting_left };

    fn read(&self, alloc: Global, tokens: &[Token], at: usize) -> Read<NetAssignment> {
        assignment(alloc, tokens, at, self.nesting_left)
    }
}

/// `'assign' delay? (left '=' expr),+ ';'`
#[tactic(auto, unfolding(crate::specs::StructureReading::assigns_at))]
pub fn assigns(alloc: Global, tokens: &[Token], at: usize, nesting_left: u32) -> Read<Item>
    requires short { length tokens.now < 2 ^ 32 }
    requires inside { at ≤ length tokens.now }
    ensures gives { Gives seen_item result (assigns_at tokens.now nesting_left at) }
    ensures inside { IfOk result (Inside tokens.now) }
{
    let next = expect(tokens, Terminal::Assign, at)?;
    let (delay, next) = delay_if(alloc, tokens, next, nesting_left)?;
    let (list, semicolon) = listed(alloc, tokens, next, &AssignmentReader { nesting_left })?;
    let end = expect(tokens, Terminal::Semicolon, semicolon)?;
    let site = site_of(tokens, at, end);
    Ok((nodes::assigns(site, delay, list), end))
}
