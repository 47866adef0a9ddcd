//! The items of a module (IEEE 1364-2005, 12.4, A.1.4 and A.4.2).
ghost use Rattle.std.specs.Prelude.{◌≢◌, ◌+◌, ◌<◌, ◌≤◌, ◌^◌, length, IfOk};
ghost use Rattle.v_tree.specs.Faults.{Gives};
ghost use Rattle.v_lexer.specs.declared.types.terminal.Terminal.TheVariants as marks;
ghost use Rattle.v_parts.specs.Seen.{Inside};
ghost use Rattle.v_parts.specs.ItemSeen.{seen_item, seen_items};
ghost use Rattle.v_parser.specs.BlockSeen.{seen_block};
ghost use Rattle.v_parser.specs.ItemReading.{item_at, item_below, items_at, generate_at, several_at, single_at, block_item_at, loop_item_at, if_item_at, generated_at};

use crate::item_kinds::{ItemKind, item_kind};
use crate::item_nodes as nodes;
use std::alloc::Global;
use v_declarations::{declaration, structure};
use v_lexer::types::Token;
use v_parts::Read;
use v_statements::{in_parens, label_if, loop_head, procedure};
use v_syntax::{GenerateBlock, Item};
use v_tree::{Stop, Terminal, expect, lower, mark_at, no_place, site_of, stands};

/// An item, where `nesting_left` levels of nesting are left to it.
#[tactic(auto, using(crate::proofs::ItemSteps::item_over), unfolding(crate::specs::ItemReading::item_with))]
#[cycle(item)]
pub fn item(alloc: Global, tokens: &[Token], at: usize, nesting_left: u32) -> Read<Item>
    requires short { length tokens.now < 2 ^ 32 }
    requires inside { at ≤ length tokens.now }
    ensures gives { Gives seen_item result (item_at tokens.now nesting_left at) }
    ensures inside { IfOk result (Inside tokens.now) }
{
    match item_kind(mark_at(tokens, at)) {
        ItemKind::Declaration => declaration(alloc, tokens, at, nesting_left),
        ItemKind::Structure => structure(alloc, tokens, at, nesting_left),
        ItemKind::Procedure => procedure(alloc, tokens, at, nesting_left),
        ItemKind::Generated => generated(alloc, tokens, at, nesting_left),
        ItemKind::Nothing => Err(Stop::Fault(no_place(tokens, at))),
    }
}

/// A generate region, loop or condition.
#[tactic(auto, unfolding(crate::specs::ItemReading::generated_at))]
#[cycle(item)]
fn generated(alloc: Global, tokens: &[Token], at: usize, nesting_left: u32) -> Read<Item>
    requires short { length tokens.now < 2 ^ 32 }
    requires inside { at ≤ length tokens.now }
    ensures gives { Gives seen_item result (generated_at tokens.now nesting_left (item_below tokens.now nesting_left) at) }
    ensures inside { IfOk result (Inside tokens.now) }
{
    if stands(tokens, at, Terminal::Generate) {
        return generate(alloc, tokens, at, nesting_left);
    }
    if stands(tokens, at, Terminal::For) {
        return generate_for(alloc, tokens, at, nesting_left);
    }
    if stands(tokens, at, Terminal::If) {
        return generate_if(alloc, tokens, at, nesting_left);
    }
    Err(Stop::Fault(no_place(tokens, at)))
}

/// `item*`, and the token that ends them.
#[tactic(auto, unfolding(crate::specs::ItemReading::items_at))]
#[cycle(item)]
pub fn items(
    alloc: Global,
    tokens: &[Token],
    at: usize,
    nesting_left: u32,
    last: Terminal,
) -> Read<Vec<Item>>
    requires short { length tokens.now < 2 ^ 32 }
    requires inside { at ≤ length tokens.now }
    requires some { last ≢ marks.Nothing }
    ensures gives { Gives seen_items result (items_at tokens.now last (item_at tokens.now nesting_left) at) }
    ensures inside { IfOk result (Inside tokens.now) }
{
    let mut list = Vec::new(alloc);
    let mut end = at;
    for _ in 0..tokens.len() {
        if stands(tokens, end, last) {
            return Ok((list, end + 1));
        }
        let (part, next) = item(alloc, tokens, end, nesting_left)?;
        list.push(part)?;
        end = next;
    }
    Err(Stop::Fault(no_place(tokens, end)))
}

/// `'generate' item* 'endgenerate'`
#[tactic(auto, using(crate::proofs::ItemSteps::item_below_less), unfolding(crate::specs::ItemReading::generate_at))]
#[cycle(item)]
fn generate(alloc: Global, tokens: &[Token], at: usize, nesting_left: u32) -> Read<Item>
    requires short { length tokens.now < 2 ^ 32 }
    requires inside { at < length tokens.now }
    ensures gives { Gives seen_item result (generate_at tokens.now nesting_left (item_below tokens.now nesting_left) at) }
    ensures inside { IfOk result (Inside tokens.now) }
{
    let nesting_left = lower(nesting_left, at)?;
    let (items, end) = items(alloc, tokens, at + 1, nesting_left, Terminal::Endgenerate)?;
    Ok((nodes::generate(site_of(tokens, at, end), items), end))
}

/// `'begin' (':' NAME)? item* 'end'`, which is no nesting of its own.
#[tactic(auto, unfolding(crate::specs::ItemReading::several_at))]
#[cycle(item)]
fn several(alloc: Global, tokens: &[Token], at: usize, nesting_left: u32) -> Read<GenerateBlock>
    requires short { length tokens.now < 2 ^ 32 }
    requires inside { at ≤ length tokens.now }
    ensures gives { Gives seen_block result (several_at tokens.now (item_at tokens.now nesting_left) at) }
    ensures inside { IfOk result (Inside tokens.now) }
{
    let next = expect(tokens, Terminal::Begin, at)?;
    let (label, next) = label_if(alloc, tokens, next)?;
    let (items, end) = items(alloc, tokens, next, nesting_left, Terminal::End)?;
    Ok((nodes::block(site_of(tokens, at, end), label, items), end))
}

/// `item`
#[tactic(auto, unfolding(crate::specs::ItemReading::single_at))]
#[cycle(item)]
fn single(alloc: Global, tokens: &[Token], at: usize, nesting_left: u32) -> Read<GenerateBlock>
    requires short { length tokens.now < 2 ^ 32 }
    requires inside { at ≤ length tokens.now }
    ensures gives { Gives seen_block result (single_at tokens.now (item_at tokens.now nesting_left) at) }
    ensures inside { IfOk result (Inside tokens.now) }
{
    let (item, end) = item(alloc, tokens, at, nesting_left)?;
    Ok((nodes::one(alloc, site_of(tokens, at, end), item)?, end))
}

/// `item | 'begin' (':' NAME)? item* 'end'`
#[tactic(auto, unfolding(crate::specs::ItemReading::block_item_at))]
#[cycle(item)]
fn block(alloc: Global, tokens: &[Token], at: usize, nesting_left: u32) -> Read<GenerateBlock>
    requires short { length tokens.now < 2 ^ 32 }
    requires inside { at ≤ length tokens.now }
    ensures gives { Gives seen_block result (block_item_at tokens.now (item_at tokens.now nesting_left) at) }
    ensures inside { IfOk result (Inside tokens.now) }
{
    if stands(tokens, at, Terminal::Begin) {
        return several(alloc, tokens, at, nesting_left);
    }
    single(alloc, tokens, at, nesting_left)
}

/// `'for' head gblock`
#[tactic(auto, using(crate::proofs::ItemSteps::item_below_less), unfolding(crate::specs::ItemReading::loop_item_at))]
#[cycle(item)]
fn generate_for(alloc: Global, tokens: &[Token], at: usize, nesting_left: u32) -> Read<Item>
    requires short { length tokens.now < 2 ^ 32 }
    requires inside { at < length tokens.now }
    ensures gives { Gives seen_item result (loop_item_at tokens.now nesting_left (item_below tokens.now nesting_left) at) }
    ensures inside { IfOk result (Inside tokens.now) }
{
    let nesting_left = lower(nesting_left, at)?;
    let (head, next) = loop_head(alloc, tokens, at + 1, nesting_left)?;
    let (body, end) = block(alloc, tokens, next, nesting_left)?;
    Ok((nodes::repeated(site_of(tokens, at, end), head, body), end))
}

/// `'if' '(' expr ')' gblock ('else' gblock)?`
#[tactic(auto, using(crate::proofs::ItemSteps::item_below_less), unfolding(crate::specs::ItemReading::if_item_at, crate::specs::ItemReading::else_item_at))]
#[cycle(item)]
fn generate_if(alloc: Global, tokens: &[Token], at: usize, nesting_left: u32) -> Read<Item>
    requires short { length tokens.now < 2 ^ 32 }
    requires inside { at < length tokens.now }
    ensures gives { Gives seen_item result (if_item_at tokens.now nesting_left (item_below tokens.now nesting_left) at) }
    ensures inside { IfOk result (Inside tokens.now) }
{
    let nesting_left = lower(nesting_left, at)?;
    let (condition, next) = in_parens(alloc, tokens, at + 1, nesting_left)?;
    let (first, end) = block(alloc, tokens, next, nesting_left)?;
    if !stands(tokens, end, Terminal::Else) {
        let site = site_of(tokens, at, end);
        return Ok((nodes::if_then(site, condition, first), end));
    }
    let (other, end) = block(alloc, tokens, end + 1, nesting_left)?;
    let site = site_of(tokens, at, end);
    Ok((nodes::if_else(site, condition, first, other), end))
}
