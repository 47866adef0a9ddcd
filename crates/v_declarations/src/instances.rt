//! Module instances (IEEE 1364-2005, 12.1.2, 12.2, 12.3 and A.4.1).
ghost use Rattle.std.specs.Prelude.{◌≡◌, ◌<◌, ◌≤◌, ◌^◌, [], length, Option, option_map, IfOk};
ghost use Rattle.v_tree.specs.Faults.{Gives};
ghost use Rattle.v_lexer.specs.declared.types.terminal.Terminal.TheVariants as marks;
ghost use Rattle.v_parts.specs.Seen.{seen_value_if, Inside};
ghost use Rattle.v_parts.specs.ItemSeen.{seen_item};
ghost use Rattle.v_parts.specs.Reading.{optional_at};
ghost use Rattle.v_syntax.specs.ItemTree.{PlainConnection, PlainInstance, connection_of, connections_of, instance_of, ordered};
ghost use Rattle.v_syntax.specs.Tree.{Tree, tree_of};
ghost use Rattle.v_declarations.specs.Structures.{ends_connection};
ghost use Rattle.v_declarations.specs.StructureReading.{connection_at, named_connection_at, by_name_at, by_order_at, connections_at, connected_at, overrides_at, instance_at, instances_at};
ghost use Rattle.v_declarations.specs.StructureSeen.{seen_connection, seen_connections, seen_connections_if, seen_instance};

use crate::structure_nodes as nodes;
use std::alloc::Global;
use v_lexer::types::Token;
use v_parts::{PartReader, Read, identifier, listed, value};
use v_syntax::{Connections, Expr, Instance, Item, NamedConnection};
use v_tree::{Terminal, expect, mark_at, site_of, stands};

/// What stands behind a connection, and where one is left out.
fn ends_connection(mark: Terminal) -> bool
    ensures { result ≡ ends_connection mark }
{
    matches!(mark, Terminal::Comma | Terminal::Close)
}

/// `expr?`, nothing where a comma or a `)` stands.
#[tactic(auto, unfolding(crate::specs::StructureReading::connection_at))]
fn connection(alloc: Global, tokens: &[Token], at: usize, nesting_left: u32) -> Read<Option<Expr>>
    requires short { length tokens.now < 2 ^ 32 }
    requires inside { at ≤ length tokens.now }
    ensures gives { Gives seen_value_if result (connection_at tokens.now nesting_left at) }
    ensures inside { IfOk result (Inside tokens.now) }
{
    if ends_connection(mark_at(tokens, at)) {
        return Ok((None, at));
    }
    let (value, end) = value(alloc, tokens, at, nesting_left)?;
    Ok((Some(value), end))
}

/// What reads a part of `expr?,+`.
#[derive(Drop)]
struct ConnectionReader {
    nesting_left: u32,
}

impl PartReader for ConnectionReader {
    type Part = Option<Expr>;

    ghost Plain = { Option Tree };

    ghost plain = { option_map tree_of };

    ghost part_at = { λ reader tokens. connection_at tokens reader.nesting_left };

    fn read(&self, alloc: Global, tokens: &[Token], at: usize) -> Read<Option<Expr>> {
        connection(alloc, tokens, at, self.nesting_left)
    }
}

/// `expr?,+` as the connections of an instance.
#[tactic(auto, unfolding(crate::specs::StructureReading::by_order_at))]
fn by_order(alloc: Global, tokens: &[Token], at: usize, nesting_left: u32) -> Read<Connections>
    requires short { length tokens.now < 2 ^ 32 }
    requires inside { at ≤ length tokens.now }
    ensures gives { Gives seen_connections result (by_order_at tokens.now nesting_left at) }
    ensures inside { IfOk result (Inside tokens.now) }
{
    let (values, end) = listed(alloc, tokens, at, &ConnectionReader { nesting_left })?;
    Ok((Connections::Ordered { values }, end))
}

/// `'.' NAME '(' expr? ')'`
#[tactic(auto, unfolding(crate::specs::StructureReading::named_connection_at))]
fn named_connection(
    alloc: Global,
    tokens: &[Token],
    at: usize,
    nesting_left: u32,
) -> Read<NamedConnection>
    requires short { length tokens.now < 2 ^ 32 }
    requires inside { at ≤ length tokens.now }
    ensures gives { Gives seen_connection result (named_connection_at tokens.now nesting_left at) }
    ensures inside { IfOk result (Inside tokens.now) }
{
    let dot = expect(tokens, Terminal::Dot, at)?;
    let (name, open) = identifier(alloc, tokens, dot)?;
    let next = expect(tokens, Terminal::Open, open)?;
    let (value, close) = connection(alloc, tokens, next, nesting_left)?;
    let end = expect(tokens, Terminal::Close, close)?;
    let site = site_of(tokens, at, end);
    Ok((NamedConnection { site, name, value }, end))
}

/// What reads a part of `('.' NAME '(' expr? ')'),+`.
#[derive(Drop)]
struct NamedConnectionReader {
    nesting_left: u32,
}

impl PartReader for NamedConnectionReader {
    type Part = NamedConnection;

    ghost Plain = { PlainConnection };

    ghost plain = { connection_of };

    ghost part_at = { λ reader tokens. named_connection_at tokens reader.nesting_left };

    fn read(&self, alloc: Global, tokens: &[Token], at: usize) -> Read<NamedConnection> {
        named_connection(alloc, tokens, at, self.nesting_left)
    }
}

/// `('.' NAME '(' expr? ')'),+` as the connections of an instance.
#[tactic(auto, unfolding(crate::specs::StructureReading::by_name_at))]
fn by_name(alloc: Global, tokens: &[Token], at: usize, nesting_left: u32) -> Read<Connections>
    requires short { length tokens.now < 2 ^ 32 }
    requires inside { at ≤ length tokens.now }
    ensures gives { Gives seen_connections result (by_name_at tokens.now nesting_left at) }
    ensures inside { IfOk result (Inside tokens.now) }
{
    let (values, end) = listed(alloc, tokens, at, &NamedConnectionReader { nesting_left })?;
    Ok((Connections::Named { values }, end))
}

/// No connection, as `()` has it.
fn unconnected(alloc: Global) -> Connections
    ensures { connections_of result ≡ ordered [] }
{
    let values = Vec::new(alloc);
    Connections::Ordered { values }
}

/// `conns?` in front of a `)`.
#[tactic(auto, unfolding(crate::specs::StructureReading::connections_at))]
fn connections(alloc: Global, tokens: &[Token], at: usize, nesting_left: u32) -> Read<Connections>
    requires short { length tokens.now < 2 ^ 32 }
    requires inside { at ≤ length tokens.now }
    ensures gives { Gives seen_connections result (connections_at tokens.now nesting_left at) }
    ensures inside { IfOk result (Inside tokens.now) }
{
    if stands(tokens, at, Terminal::Close) {
        return Ok((unconnected(alloc), at));
    }
    if stands(tokens, at, Terminal::Dot) {
        return by_name(alloc, tokens, at, nesting_left);
    }
    by_order(alloc, tokens, at, nesting_left)
}

/// `'(' conns? ')'`
#[tactic(auto, unfolding(crate::specs::StructureReading::connected_at))]
fn connected(alloc: Global, tokens: &[Token], at: usize, nesting_left: u32) -> Read<Connections>
    requires short { length tokens.now < 2 ^ 32 }
    requires inside { at ≤ length tokens.now }
    ensures gives { Gives seen_connections result (connected_at tokens.now nesting_left at) }
    ensures inside { IfOk result (Inside tokens.now) }
{
    let next = expect(tokens, Terminal::Open, at)?;
    let (list, close) = connections(alloc, tokens, next, nesting_left)?;
    let end = expect(tokens, Terminal::Close, close)?;
    Ok((list, end))
}

/// `('#' '(' conns? ')')?`
#[tactic(auto, unfolding(v_parts::specs::Reading::optional_at, crate::specs::StructureReading::overrides_at))]
fn overrides_if(
    alloc: Global,
    tokens: &[Token],
    at: usize,
    nesting_left: u32,
) -> Read<Option<Connections>>
    requires short { length tokens.now < 2 ^ 32 }
    requires inside { at ≤ length tokens.now }
    ensures gives { Gives seen_connections_if result (optional_at tokens.now marks.Hash (overrides_at tokens.now nesting_left) at) }
    ensures inside { IfOk result (Inside tokens.now) }
{
    if !stands(tokens, at, Terminal::Hash) {
        return Ok((None, at));
    }
    let next = expect(tokens, Terminal::Hash, at)?;
    let (list, end) = connected(alloc, tokens, next, nesting_left)?;
    Ok((Some(list), end))
}

/// `NAME '(' conns? ')'`
#[tactic(auto, unfolding(crate::specs::StructureReading::instance_at))]
fn instance(alloc: Global, tokens: &[Token], at: usize, nesting_left: u32) -> Read<Instance>
    requires short { length tokens.now < 2 ^ 32 }
    requires inside { at ≤ length tokens.now }
    ensures gives { Gives seen_instance result (instance_at tokens.now nesting_left at) }
    ensures inside { IfOk result (Inside tokens.now) }
{
    let (name, open) = identifier(alloc, tokens, at)?;
    let (connections, end) = connected(alloc, tokens, open, nesting_left)?;
    let site = site_of(tokens, at, end);
    Ok((
        Instance {
            site,
            name,
            connections,
        },
        end,
    ))
}

/// What reads a part of `(NAME '(' conns? ')'),+`.
#[derive(Drop)]
struct InstanceReader {
    nesting_left: u32,
}

impl PartReader for InstanceReader {
    type Part = Instance;

    ghost Plain = { PlainInstance };

    ghost plain = { instance_of };

    ghost part_at = { λ reader tokens. instance_at tokens reader.nesting_left };

    fn read(&self, alloc: Global, tokens: &[Token], at: usize) -> Read<Instance> {
        instance(alloc, tokens, at, self.nesting_left)
    }
}

/// `NAME ('#' '(' conns? ')')? (NAME '(' conns? ')'),+ ';'`
#[tactic(auto, unfolding(crate::specs::StructureReading::instances_at))]
pub fn instances(alloc: Global, tokens: &[Token], at: usize, nesting_left: u32) -> Read<Item>
    requires short { length tokens.now < 2 ^ 32 }
    requires inside { at ≤ length tokens.now }
    ensures gives { Gives seen_item result (instances_at tokens.now nesting_left at) }
    ensures inside { IfOk result (Inside tokens.now) }
{
    let (module, next) = identifier(alloc, tokens, at)?;
    let (parameters, next) = overrides_if(alloc, tokens, next, nesting_left)?;
    let (list, semicolon) = listed(alloc, tokens, next, &InstanceReader { nesting_left })?;
    let end = expect(tokens, Terminal::Semicolon, semicolon)?;
    let site = site_of(tokens, at, end);
    Ok((nodes::instances(site, module, parameters, list), end))
}
