//! Declarations of ports, nets, registers and parameters (IEEE 1364-2005, clause 4 and A.2).
ghost use Rattle.std.specs.Prelude.{◌≡◌, ◌+◌, ◌<◌, ◌≤◌, ◌^◌, length, option_map, IfOk};
ghost use Rattle.v_tree.specs.Faults.{Gives};
ghost use Rattle.v_syntax.specs.PartTree.{range_of};
ghost use Rattle.v_syntax.specs.ItemTree.{PlainDeclarator, declarator_of};
ghost use Rattle.v_parts.specs.Seen.{as_is, seen_identifiers, Inside};
ghost use Rattle.v_parts.specs.ItemSeen.{seen_item};
ghost use Rattle.v_declarations.specs.DeclarationSeen.{seen_declarator};
ghost use Rattle.v_declarations.specs.DeclarationReading.{close_names_at, names_at, port_names_at, ports_at, integers_at, genvars_at, net_at, array_at, scalar_at, behind_name_at, declarator_at, net_names_at, nets_at, parameter_kind_at, parameters_at, is_net, declaration_at};

use crate::declaration_nodes as nodes;
use crate::types::{
    PortWords, direction, is_direction, is_output_reg, net_if, parameter_type, signed_if,
};
use std::alloc::Global;
use v_lexer::types::Token;
use v_parts::{
    PartReader, Read, delay_if, identifier, identifiers, listed, named_values, range, range_if,
    value_if,
};
use v_syntax::{Declarator, Identifier, Item, NetKind, ParameterKind, Range};
use v_tree::{Fault, Stop, Terminal, expect, mark_at, no_place, site_of, stands};

/// `';'` behind names, where a bracket and, with `plain`, an equals sign are of forms that are left out.
#[tactic(auto, unfolding(crate::specs::DeclarationReading::close_names_at))]
fn close_names(
    tokens: &[Token],
    names: Vec<Identifier>,
    at: usize,
    plain: bool,
) -> Read<Vec<Identifier>>
    ensures gives { Gives seen_identifiers result (close_names_at tokens.now plain names.items at) }
    ensures inside { IfOk result (Inside tokens.now) }
{
    if stands(tokens, at, Terminal::OpenBracket) {
        return Err(Stop::Fault(Fault::Unsupported(at)));
    }
    if plain && stands(tokens, at, Terminal::Equals) {
        return Err(Stop::Fault(Fault::Unsupported(at)));
    }
    let end = expect(tokens, Terminal::Semicolon, at)?;
    Ok((names, end))
}

/// `NAME,+ ';'`, where with `plain` an equals sign behind a name is of a form that is left out.
#[tactic(auto, unfolding(crate::specs::DeclarationReading::names_at))]
fn names(alloc: Global, tokens: &[Token], at: usize, plain: bool) -> Read<Vec<Identifier>>
    requires short { length tokens.now < 2 ^ 32 }
    requires inside { at ≤ length tokens.now }
    ensures gives { Gives seen_identifiers result (names_at tokens.now plain at) }
    ensures inside { IfOk result (Inside tokens.now) }
{
    let (list, semicolon) = identifiers(alloc, tokens, at)?;
    close_names(tokens, list, semicolon, plain)
}

/// `NAME,+ ';'` behind the words of a port item.
#[tactic(auto, unfolding(crate::specs::DeclarationReading::port_names_at))]
fn port_names(alloc: Global, tokens: &[Token], words: PortWords, at: usize) -> Read<Item>
    requires short { length tokens.now < 2 ^ 32 }
    requires before { words.from < 2 ^ 32 }
    requires inside { at ≤ length tokens.now }
    ensures gives { Gives seen_item result (port_names_at tokens.now words.from words.direction words.net words.signed (option_map range_of words.range) at) }
    ensures inside { IfOk result (Inside tokens.now) }
{
    let PortWords {
        from,
        direction,
        net,
        signed,
        range,
    } = words;
    let plain = !is_output_reg(direction, net);
    let (names, end) = names(alloc, tokens, at, plain)?;
    let site = site_of(tokens, from, end);
    Ok((nodes::port(site, direction, net, signed, range, names), end))
}

/// `('input'|'output') ('wire'|'reg')? 'signed'? range? NAME,+ ';'`
#[tactic(auto, unfolding(crate::specs::DeclarationReading::ports_at))]
fn ports(alloc: Global, tokens: &[Token], from: usize, nesting_left: u32) -> Read<Item>
    requires short { length tokens.now < 2 ^ 32 }
    requires inside { from ≤ length tokens.now }
    ensures gives { Gives seen_item result (ports_at tokens.now nesting_left from) }
    ensures inside { IfOk result (Inside tokens.now) }
{
    let (direction, next) = direction(tokens, from)?;
    let (net, next) = net_if(tokens, next)?;
    let (signed, next) = signed_if(tokens, next)?;
    let (range, at) = range_if(alloc, tokens, next, nesting_left)?;
    let words = PortWords {
        from,
        direction,
        net,
        signed,
        range,
    };
    port_names(alloc, tokens, words, at)
}

/// `'integer' NAME,+ ';'`
#[tactic(auto, unfolding(crate::specs::DeclarationReading::integers_at))]
fn integers(alloc: Global, tokens: &[Token], at: usize) -> Read<Item>
    requires short { length tokens.now < 2 ^ 32 }
    requires inside { at ≤ length tokens.now }
    ensures gives { Gives seen_item result (integers_at tokens.now at) }
    ensures inside { IfOk result (Inside tokens.now) }
{
    let next = expect(tokens, Terminal::Integer, at)?;
    let (names, end) = names(alloc, tokens, next, false)?;
    Ok((nodes::integers(site_of(tokens, at, end), names), end))
}

/// `'genvar' NAME,+ ';'`
#[tactic(auto, unfolding(crate::specs::DeclarationReading::genvars_at))]
fn genvars(alloc: Global, tokens: &[Token], at: usize) -> Read<Item>
    requires short { length tokens.now < 2 ^ 32 }
    requires inside { at ≤ length tokens.now }
    ensures gives { Gives seen_item result (genvars_at tokens.now at) }
    ensures inside { IfOk result (Inside tokens.now) }
{
    let next = expect(tokens, Terminal::Genvar, at)?;
    let (names, end) = names(alloc, tokens, next, false)?;
    Ok((nodes::genvars(site_of(tokens, at, end), names), end))
}

/// `'wire' | 'reg'`
#[tactic(auto, unfolding(crate::specs::DeclarationReading::net_at))]
fn net(tokens: &[Token], at: usize) -> Read<NetKind>
    ensures gives { Gives as_is result (net_at tokens.now at) }
    ensures inside { IfOk result (Inside tokens.now) }
{
    if stands(tokens, at, Terminal::Wire) {
        return Ok((NetKind::Wire, at + 1));
    }
    if stands(tokens, at, Terminal::Reg) {
        return Ok((NetKind::Reg, at + 1));
    }
    Err(Stop::Fault(no_place(tokens, at)))
}

/// `range` behind the name of a reg that begins at `from`.
#[tactic(auto, unfolding(crate::specs::DeclarationReading::array_at))]
fn array(
    alloc: Global,
    tokens: &[Token],
    from: usize,
    name: Identifier,
    at: usize,
    nesting_left: u32,
) -> Read<Declarator>
    requires short { length tokens.now < 2 ^ 32 }
    requires before { from < 2 ^ 32 }
    requires inside { at < length tokens.now }
    ensures gives { Gives seen_declarator result (array_at tokens.now nesting_left from name at) }
    ensures inside { IfOk result (Inside tokens.now) }
{
    let (range, end) = range(alloc, tokens, at, nesting_left)?;
    if stands(tokens, end, Terminal::Equals) {
        return Err(Stop::Fault(Fault::Unsupported(end)));
    }
    let site = site_of(tokens, from, end);
    let declarator = Declarator {
        site,
        name,
        range: Some(range),
        value: None,
    };
    Ok((declarator, end))
}

/// `('=' expr)?` behind the name that begins at `from`.
#[tactic(auto, unfolding(crate::specs::DeclarationReading::scalar_at))]
fn scalar(
    alloc: Global,
    tokens: &[Token],
    from: usize,
    name: Identifier,
    at: usize,
    nesting_left: u32,
) -> Read<Declarator>
    requires short { length tokens.now < 2 ^ 32 }
    requires before { from < 2 ^ 32 }
    requires inside { at ≤ length tokens.now }
    ensures gives { Gives seen_declarator result (scalar_at tokens.now nesting_left from name at) }
    ensures inside { IfOk result (Inside tokens.now) }
{
    let (value, end) = value_if(alloc, tokens, at, nesting_left)?;
    let site = site_of(tokens, from, end);
    let declarator = Declarator {
        site,
        name,
        range: None,
        value,
    };
    Ok((declarator, end))
}

/// What stands behind the name that begins at `from`: a range only behind that of a reg.
#[tactic(auto, unfolding(crate::specs::DeclarationReading::behind_name_at))]
fn behind_name(
    alloc: Global,
    tokens: &[Token],
    from: usize,
    name: Identifier,
    at: usize,
    nesting_left: u32,
    net: NetKind,
) -> Read<Declarator>
    requires short { length tokens.now < 2 ^ 32 }
    requires before { from < 2 ^ 32 }
    requires inside { at ≤ length tokens.now }
    ensures gives { Gives seen_declarator result (behind_name_at tokens.now nesting_left net from name at) }
    ensures inside { IfOk result (Inside tokens.now) }
{
    if !stands(tokens, at, Terminal::OpenBracket) {
        return scalar(alloc, tokens, from, name, at, nesting_left);
    }
    match net {
        NetKind::Wire => Err(Stop::Fault(Fault::Unsupported(at))),
        NetKind::Reg => array(alloc, tokens, from, name, at, nesting_left),
    }
}

/// `NAME range? ('=' expr)?`, where a range is of a reg without a value.
#[tactic(auto, unfolding(crate::specs::DeclarationReading::declarator_at))]
fn declarator(
    alloc: Global,
    tokens: &[Token],
    at: usize,
    nesting_left: u32,
    net: NetKind,
) -> Read<Declarator>
    requires short { length tokens.now < 2 ^ 32 }
    requires inside { at ≤ length tokens.now }
    ensures gives { Gives seen_declarator result (declarator_at tokens.now nesting_left net at) }
    ensures inside { IfOk result (Inside tokens.now) }
{
    let (name, next) = identifier(alloc, tokens, at)?;
    behind_name(alloc, tokens, at, name, next, nesting_left, net)
}

/// What reads a part of `decl,+`.
#[derive(Drop)]
struct DeclaratorReader {
    nesting_left: u32,
    net: NetKind,
}

impl PartReader for DeclaratorReader {
    type Part = Declarator;

    ghost Plain = { PlainDeclarator };

    ghost plain = { declarator_of };

    ghost part_at = { λ reader tokens. declarator_at tokens reader.nesting_left reader.net };

    fn read(&self, alloc: Global, tokens: &[Token], at: usize) -> Read<Declarator> {
        declarator(alloc, tokens, at, self.nesting_left, self.net)
    }
}

/// What stands before the delay of a net item that begins at `from`.
struct NetWords {
    from: usize,
    net: NetKind,
    signed: bool,
    range: Option<Range>,
}

/// `delay? decl,+ ';'` behind that.
#[tactic(auto, unfolding(crate::specs::DeclarationReading::net_names_at))]
fn net_names(
    alloc: Global,
    tokens: &[Token],
    words: NetWords,
    at: usize,
    nesting_left: u32,
) -> Read<Item>
    requires short { length tokens.now < 2 ^ 32 }
    requires before { words.from < 2 ^ 32 }
    requires inside { at ≤ length tokens.now }
    ensures gives { Gives seen_item result (net_names_at tokens.now nesting_left words.from words.net words.signed (option_map range_of words.range) at) }
    ensures inside { IfOk result (Inside tokens.now) }
{
    let NetWords {
        from,
        net,
        signed,
        range,
    } = words;
    let (delay, next) = delay_if(alloc, tokens, at, nesting_left)?;
    let (names, semicolon) = listed(alloc, tokens, next, &DeclaratorReader { nesting_left, net })?;
    let end = expect(tokens, Terminal::Semicolon, semicolon)?;
    let site = site_of(tokens, from, end);
    Ok((
        nodes::declaration(site, net, signed, range, delay, names),
        end,
    ))
}

/// `('wire'|'reg') 'signed'? range? delay? decl,+ ';'`
#[tactic(auto, unfolding(crate::specs::DeclarationReading::nets_at))]
fn nets(alloc: Global, tokens: &[Token], from: usize, nesting_left: u32) -> Read<Item>
    requires short { length tokens.now < 2 ^ 32 }
    requires inside { from ≤ length tokens.now }
    ensures gives { Gives seen_item result (nets_at tokens.now nesting_left from) }
    ensures inside { IfOk result (Inside tokens.now) }
{
    let (net, next) = net(tokens, from)?;
    let (signed, next) = signed_if(tokens, next)?;
    let (range, at) = range_if(alloc, tokens, next, nesting_left)?;
    let words = NetWords {
        from,
        net,
        signed,
        range,
    };
    net_names(alloc, tokens, words, at, nesting_left)
}

/// `'parameter' | 'localparam'`
#[tactic(auto, unfolding(crate::specs::DeclarationReading::parameter_kind_at))]
fn parameter_kind(tokens: &[Token], at: usize) -> Read<ParameterKind>
    ensures gives { Gives as_is result (parameter_kind_at tokens.now at) }
    ensures inside { IfOk result (Inside tokens.now) }
{
    if stands(tokens, at, Terminal::Parameter) {
        return Ok((ParameterKind::Parameter, at + 1));
    }
    if stands(tokens, at, Terminal::Localparam) {
        return Ok((ParameterKind::Local, at + 1));
    }
    Err(Stop::Fault(no_place(tokens, at)))
}

/// `('parameter'|'localparam') ptype (NAME '=' expr),+ ';'`
#[tactic(auto, unfolding(crate::specs::DeclarationReading::parameters_at))]
fn parameters(alloc: Global, tokens: &[Token], at: usize, nesting_left: u32) -> Read<Item>
    requires short { length tokens.now < 2 ^ 32 }
    requires inside { at ≤ length tokens.now }
    ensures gives { Gives seen_item result (parameters_at tokens.now nesting_left at) }
    ensures inside { IfOk result (Inside tokens.now) }
{
    let (kind, next) = parameter_kind(tokens, at)?;
    let (type_of, next) = parameter_type(alloc, tokens, next, nesting_left)?;
    let (values, semicolon) = named_values(alloc, tokens, next, nesting_left)?;
    let end = expect(tokens, Terminal::Semicolon, semicolon)?;
    let site = site_of(tokens, at, end);
    Ok((nodes::parameters(site, kind, type_of, values), end))
}

/// Whether nets begin so.
fn is_net(mark: Terminal) -> bool
    ensures { result ≡ is_net mark }
{
    matches!(mark, Terminal::Wire | Terminal::Reg)
}

/// An item that declares ports, nets, registers, integers, genvars or parameters.
#[tactic(auto, unfolding(crate::specs::DeclarationReading::declaration_at))]
pub fn declaration(alloc: Global, tokens: &[Token], at: usize, nesting_left: u32) -> Read<Item>
    requires short { length tokens.now < 2 ^ 32 }
    requires inside { at ≤ length tokens.now }
    ensures gives { Gives seen_item result (declaration_at tokens.now nesting_left at) }
    ensures inside { IfOk result (Inside tokens.now) }
{
    if is_direction(mark_at(tokens, at)) {
        return ports(alloc, tokens, at, nesting_left);
    }
    if is_net(mark_at(tokens, at)) {
        return nets(alloc, tokens, at, nesting_left);
    }
    if stands(tokens, at, Terminal::Integer) {
        return integers(alloc, tokens, at);
    }
    if stands(tokens, at, Terminal::Genvar) {
        return genvars(alloc, tokens, at);
    }
    parameters(alloc, tokens, at, nesting_left)
}
