//! Gates (IEEE 1364-2005, 7.1 to 7.3 and A.3).
ghost use Rattle.std.specs.Prelude.{◌≡◌, ◌<◌, ◌≤◌, ◌^◌, length, IfOk};
ghost use Rattle.v_tree.specs.Faults.{Gives};
ghost use Rattle.v_syntax.specs.ItemTree.{PlainGate, gate_of};
ghost use Rattle.v_lexer.specs.declared.types.terminal.Terminal.TheVariants as marks;
ghost use Rattle.v_parts.specs.Seen.{as_is, Inside};
ghost use Rattle.v_parts.specs.ItemSeen.{seen_item};
ghost use Rattle.v_parts.specs.Reading.{optional_at, name_at};
ghost use Rattle.v_declarations.specs.Structures.{gate_kind};
ghost use Rattle.v_declarations.specs.StructureReading.{gate_word_at, gate_at, gates_at, is_gate};
ghost use Rattle.v_declarations.specs.StructureSeen.{seen_gate};

use crate::structure_nodes as nodes;
use loc_base::Name;
use std::alloc::Global;
use v_lexer::types::Token;
use v_parts::{PartReader, Read, delay_if, listed, name, values};
use v_syntax::{GateInstance, GateKind, Item};
use v_tree::{Stop, Terminal, expect, mark_at, no_place, site_of, stands};

/// The gate that a word names.
fn gate_kind(mark: Terminal) -> Option<GateKind>
    ensures { result ≡ gate_kind mark }
{
    match mark {
        Terminal::And => Some(GateKind::And),
        Terminal::Or => Some(GateKind::Or),
        Terminal::Nand => Some(GateKind::Nand),
        Terminal::Nor => Some(GateKind::Nor),
        Terminal::Xor => Some(GateKind::Xor),
        Terminal::Xnor => Some(GateKind::Xnor),
        Terminal::Buf => Some(GateKind::Buf),
        Terminal::Not => Some(GateKind::Not),
        _ => None,
    }
}

/// Whether it is a gate's word.
pub fn is_gate(mark: Terminal) -> bool
    ensures { result ≡ is_gate mark }
{
    gate_kind(mark).is_some()
}

/// `'and' | 'or' | 'nand' | 'nor' | 'xor' | 'xnor' | 'buf' | 'not'`
#[tactic(auto, using(crate::proofs::StructureSteps::gate_inside), unfolding(crate::specs::StructureReading::gate_word_at))]
fn gate_word(tokens: &[Token], at: usize) -> Read<GateKind>
    ensures gives { Gives as_is result (gate_word_at tokens.now at) }
    ensures inside { IfOk result (Inside tokens.now) }
{
    match gate_kind(mark_at(tokens, at)) {
        Some(kind) => Ok((kind, at + 1)),
        None => Err(Stop::Fault(no_place(tokens, at))),
    }
}

/// `NAME?`
#[tactic(auto, unfolding(v_parts::specs::Reading::optional_at))]
fn name_if(alloc: Global, tokens: &[Token], at: usize) -> Read<Option<Name>>
    requires short { length tokens.now < 2 ^ 32 }
    requires inside { at ≤ length tokens.now }
    ensures gives { Gives as_is result (optional_at tokens.now marks.Name (name_at tokens.now) at) }
    ensures inside { IfOk result (Inside tokens.now) }
{
    if !stands(tokens, at, Terminal::Name) {
        return Ok((None, at));
    }
    let (name, end) = name(alloc, tokens, at)?;
    Ok((Some(name), end))
}

/// `NAME? '(' expr,+ ')'`
#[tactic(auto, unfolding(crate::specs::StructureReading::gate_at))]
fn gate(alloc: Global, tokens: &[Token], at: usize, nesting_left: u32) -> Read<GateInstance>
    requires short { length tokens.now < 2 ^ 32 }
    requires inside { at ≤ length tokens.now }
    ensures gives { Gives seen_gate result (gate_at tokens.now nesting_left at) }
    ensures inside { IfOk result (Inside tokens.now) }
{
    let (name, open) = name_if(alloc, tokens, at)?;
    let next = expect(tokens, Terminal::Open, open)?;
    let (terminals, close) = values(alloc, tokens, next, nesting_left)?;
    let end = expect(tokens, Terminal::Close, close)?;
    let site = site_of(tokens, at, end);
    Ok((
        GateInstance {
            site,
            name,
            terminals,
        },
        end,
    ))
}

/// What reads a part of `(NAME? '(' expr,+ ')'),+`.
#[derive(Drop)]
struct GateReader {
    nesting_left: u32,
}

impl PartReader for GateReader {
    type Part = GateInstance;

    ghost Plain = { PlainGate };

    ghost plain = { gate_of };

    ghost part_at = { λ reader tokens. gate_at tokens reader.nesting_left };

    fn read(&self, alloc: Global, tokens: &[Token], at: usize) -> Read<GateInstance> {
        gate(alloc, tokens, at, self.nesting_left)
    }
}

/// `gate delay? (NAME? '(' expr,+ ')'),+ ';'`
#[tactic(auto, unfolding(crate::specs::StructureReading::gates_at))]
pub fn gates(alloc: Global, tokens: &[Token], at: usize, nesting_left: u32) -> Read<Item>
    requires short { length tokens.now < 2 ^ 32 }
    requires inside { at ≤ length tokens.now }
    ensures gives { Gives seen_item result (gates_at tokens.now nesting_left at) }
    ensures inside { IfOk result (Inside tokens.now) }
{
    let (kind, next) = gate_word(tokens, at)?;
    let (delay, next) = delay_if(alloc, tokens, next, nesting_left)?;
    let (list, semicolon) = listed(alloc, tokens, next, &GateReader { nesting_left })?;
    let end = expect(tokens, Terminal::Semicolon, semicolon)?;
    let site = site_of(tokens, at, end);
    Ok((nodes::gates(site, kind, delay, list), end))
}
