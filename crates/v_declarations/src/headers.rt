//! The header of a module (IEEE 1364-2005, 12.2, 12.3 and A.1.2 to A.1.3).
ghost use Rattle.std.specs.Prelude.{◌+◌, ◌<◌, ◌≤◌, ◌^◌, length, option_map, IfOk};
ghost use Rattle.v_tree.specs.Faults.{Gives};
ghost use Rattle.v_syntax.specs.PartTree.{range_of};
ghost use Rattle.v_parts.specs.Seen.{as_is, seen_value_if, Inside};
ghost use Rattle.v_parts.specs.ItemSeen.{seen_header_parameters, seen_ports};
ghost use Rattle.v_syntax.specs.ModuleTree.{PlainHeaderParameter, header_parameter_of, port_of};
ghost use Rattle.v_declarations.specs.HeaderSeen.{seen_header_parameter, seen_port, seen_port_list};
ghost use Rattle.v_declarations.specs.HeaderReading.{parameter_word_at, header_parameter_at, closed_parameters_at, parameters_behind_at, parameters_at, header_parameters_at, value_of_at, port_value_at, port_name_at, declared_port_at, same_port_at, port_at, next_port_at, ports_at, port_list_at, name_list_at, some_ports_at, ports_behind_at, ports_in_parens_at, header_ports_at};

use crate::header_nodes as nodes;
use crate::types::{
    PortWords, direction, is_direction, is_output_reg, net_if, parameter_type, signed_if,
};
use std::alloc::Global;
use v_lexer::types::Token;
use v_parts::{PartReader, Read, identifier, identifiers, listed, range_if, value, value_if};
use v_syntax::{Expr, HeaderParameter, Port, Ports};
use v_tree::{Fault, Stop, Terminal, expect, mark_at, no_place, site_of, stands};

/// `'parameter'?`
#[tactic(auto, unfolding(crate::specs::HeaderReading::parameter_word_at))]
fn parameter_word(tokens: &[Token], at: usize) -> Read<bool>
    requires inside { at ≤ length tokens.now }
    ensures gives { Gives as_is result (parameter_word_at tokens.now at) }
    ensures inside { IfOk result (Inside tokens.now) }
{
    if stands(tokens, at, Terminal::Parameter) {
        return Ok((true, at + 1));
    }
    Ok((false, at))
}

/// `'parameter'? ptype NAME '=' expr`
#[tactic(auto, unfolding(crate::specs::HeaderReading::header_parameter_at))]
fn header_parameter(
    alloc: Global,
    tokens: &[Token],
    at: usize,
    nesting_left: u32,
) -> Read<HeaderParameter>
    requires short { length tokens.now < 2 ^ 32 }
    requires inside { at ≤ length tokens.now }
    ensures gives { Gives seen_header_parameter result (header_parameter_at tokens.now nesting_left at) }
    ensures inside { IfOk result (Inside tokens.now) }
{
    let (opens, next) = parameter_word(tokens, at)?;
    let (type_of, next) = parameter_type(alloc, tokens, next, nesting_left)?;
    let (name, equals) = identifier(alloc, tokens, next)?;
    let next = expect(tokens, Terminal::Equals, equals)?;
    let (value, end) = value(alloc, tokens, next, nesting_left)?;
    let site = site_of(tokens, at, end);
    let parameter = HeaderParameter {
        site,
        opens,
        type_of,
        name,
        value,
    };
    Ok((parameter, end))
}

/// What reads a part of `hparam,+`.
#[derive(Drop)]
struct HeaderParameterReader {
    nesting_left: u32,
}

impl PartReader for HeaderParameterReader {
    type Part = HeaderParameter;

    ghost Plain = { PlainHeaderParameter };

    ghost plain = { header_parameter_of };

    ghost part_at = { λ reader tokens. header_parameter_at tokens reader.nesting_left };

    fn read(&self, alloc: Global, tokens: &[Token], at: usize) -> Read<HeaderParameter> {
        header_parameter(alloc, tokens, at, self.nesting_left)
    }
}

/// `hparam,+ ')'`, the first of which begins with the word `parameter`.
#[tactic(auto, unfolding(crate::specs::HeaderReading::parameters_behind_at, crate::specs::HeaderReading::closed_parameters_at))]
fn parameters_behind(
    alloc: Global,
    tokens: &[Token],
    at: usize,
    nesting_left: u32,
) -> Read<Vec<HeaderParameter>>
    requires short { length tokens.now < 2 ^ 32 }
    requires inside { at ≤ length tokens.now }
    ensures gives { Gives seen_header_parameters result (parameters_behind_at tokens.now nesting_left at) }
    ensures inside { IfOk result (Inside tokens.now) }
{
    if !stands(tokens, at, Terminal::Parameter) {
        return Err(Stop::Fault(no_place(tokens, at)));
    }
    let (list, close) = listed(alloc, tokens, at, &HeaderParameterReader { nesting_left })?;
    let end = expect(tokens, Terminal::Close, close)?;
    Ok((list, end))
}

/// `('#' '(' hparam,+ ')')?`
#[tactic(auto, unfolding(crate::specs::HeaderReading::header_parameters_at, crate::specs::HeaderReading::parameters_at))]
pub fn header_parameters(
    alloc: Global,
    tokens: &[Token],
    at: usize,
    nesting_left: u32,
) -> Read<Vec<HeaderParameter>>
    requires short { length tokens.now < 2 ^ 32 }
    requires inside { at ≤ length tokens.now }
    ensures gives { Gives seen_header_parameters result (header_parameters_at tokens.now nesting_left at) }
    ensures inside { IfOk result (Inside tokens.now) }
{
    if !stands(tokens, at, Terminal::Hash) {
        return Ok((Vec::new(alloc), at));
    }
    let next = expect(tokens, Terminal::Hash, at)?;
    let first = expect(tokens, Terminal::Open, next)?;
    parameters_behind(alloc, tokens, first, nesting_left)
}

/// `('=' expr)?` of an `output reg`; another port has no value.
#[tactic(auto, unfolding(crate::specs::HeaderReading::value_of_at))]
fn value_of(
    alloc: Global,
    tokens: &[Token],
    at: usize,
    nesting_left: u32,
    reg: bool,
) -> Read<Option<Expr>>
    requires short { length tokens.now < 2 ^ 32 }
    requires inside { at ≤ length tokens.now }
    ensures gives { Gives seen_value_if result (value_of_at tokens.now nesting_left reg at) }
    ensures inside { IfOk result (Inside tokens.now) }
{
    if reg {
        return value_if(alloc, tokens, at, nesting_left);
    }
    if stands(tokens, at, Terminal::Equals) {
        return Err(Stop::Fault(Fault::Unsupported(at)));
    }
    Ok((None, at))
}

/// What stands behind a port's name.
#[tactic(auto, unfolding(crate::specs::HeaderReading::port_value_at))]
fn port_value(
    alloc: Global,
    tokens: &[Token],
    at: usize,
    nesting_left: u32,
    reg: bool,
) -> Read<Option<Expr>>
    requires short { length tokens.now < 2 ^ 32 }
    requires inside { at ≤ length tokens.now }
    ensures gives { Gives seen_value_if result (port_value_at tokens.now nesting_left reg at) }
    ensures inside { IfOk result (Inside tokens.now) }
{
    if stands(tokens, at, Terminal::OpenBracket) {
        return Err(Stop::Fault(Fault::Unsupported(at)));
    }
    value_of(alloc, tokens, at, nesting_left, reg)
}

/// `NAME ('=' expr)?` behind the words of a port.
#[tactic(auto, unfolding(crate::specs::HeaderReading::port_name_at))]
fn port_name(
    alloc: Global,
    tokens: &[Token],
    words: PortWords,
    at: usize,
    nesting_left: u32,
) -> Read<Port>
    requires short { length tokens.now < 2 ^ 32 }
    requires before { words.from < 2 ^ 32 }
    requires inside { at ≤ length tokens.now }
    ensures gives { Gives seen_port result (port_name_at tokens.now nesting_left words.from words.direction words.net words.signed (option_map range_of words.range) at) }
    ensures inside { IfOk result (Inside tokens.now) }
{
    let PortWords {
        from,
        direction,
        net,
        signed,
        range,
    } = words;
    let (name, next) = identifier(alloc, tokens, at)?;
    let reg = is_output_reg(direction, net);
    let (value, end) = port_value(alloc, tokens, next, nesting_left, reg)?;
    let site = site_of(tokens, from, end);
    Ok((
        nodes::declared_port(site, direction, net, signed, range, name, value),
        end,
    ))
}

/// `dir ('wire' | 'reg')? 'signed'? range? NAME ('=' expr)?`
#[tactic(auto, unfolding(crate::specs::HeaderReading::declared_port_at))]
fn declared_port(alloc: Global, tokens: &[Token], from: usize, nesting_left: u32) -> Read<Port>
    requires short { length tokens.now < 2 ^ 32 }
    requires inside { from ≤ length tokens.now }
    ensures gives { Gives seen_port result (declared_port_at tokens.now nesting_left from) }
    ensures inside { IfOk result (Inside tokens.now) }
{
    let (direction, next) = direction(tokens, from)?;
    let (net, next) = net_if(tokens, next)?;
    let (signed, next) = signed_if(tokens, next)?;
    let (range, at) = range_if(alloc, tokens, next, nesting_left)?;
    let words = PortWords {
        from,
        direction,
        net,
        signed,
        range,
    };
    port_name(alloc, tokens, words, at, nesting_left)
}

/// `NAME ('=' expr)?`, where the port before is an `output reg` or isn't.
#[tactic(auto, unfolding(crate::specs::HeaderReading::same_port_at))]
fn same_port(alloc: Global, tokens: &[Token], at: usize, nesting_left: u32, reg: bool) -> Read<Port>
    requires short { length tokens.now < 2 ^ 32 }
    requires inside { at ≤ length tokens.now }
    ensures gives { Gives seen_port result (same_port_at tokens.now nesting_left reg at) }
    ensures inside { IfOk result (Inside tokens.now) }
{
    let (name, next) = identifier(alloc, tokens, at)?;
    let (value, end) = port_value(alloc, tokens, next, nesting_left, reg)?;
    Ok((nodes::same_port(site_of(tokens, at, end), name, value), end))
}

/// `',' aport`
#[tactic(auto, unfolding(crate::specs::HeaderReading::next_port_at, crate::specs::HeaderReading::port_at))]
fn next_port(alloc: Global, tokens: &[Token], at: usize, nesting_left: u32, reg: bool) -> Read<Port>
    requires short { length tokens.now < 2 ^ 32 }
    requires inside { at ≤ length tokens.now }
    ensures gives { Gives seen_port result (next_port_at tokens.now nesting_left reg at) }
    ensures inside { IfOk result (Inside tokens.now) }
{
    let next = expect(tokens, Terminal::Comma, at)?;
    if is_direction(mark_at(tokens, next)) {
        return declared_port(alloc, tokens, next, nesting_left);
    }
    same_port(alloc, tokens, next, nesting_left, reg)
}

/// `(',' aport)* ')'` behind the first port.
#[tactic(auto, unfolding(crate::specs::HeaderReading::ports_at))]
fn ports(
    alloc: Global,
    tokens: &[Token],
    at: usize,
    nesting_left: u32,
    first: Port,
) -> Read<Vec<Port>>
    requires short { length tokens.now < 2 ^ 32 }
    requires inside { at ≤ length tokens.now }
    ensures gives { Gives seen_port_list result (ports_at tokens.now nesting_left (port_of first) at) }
    ensures inside { IfOk result (Inside tokens.now) }
{
    let mut list = Vec::new(alloc);
    let mut reg = nodes::is_reg(false, &first);
    let mut end = at;
    list.push(first)?;
    for _ in 0..tokens.len() {
        if stands(tokens, end, Terminal::Close) {
            return Ok((list, end + 1));
        }
        let (part, next) = next_port(alloc, tokens, end, nesting_left, reg)?;
        reg = nodes::is_reg(reg, &part);
        list.push(part)?;
        end = next;
    }
    Err(Stop::Fault(no_place(tokens, end)))
}

/// `aport,+ ')'`, the first of which has a direction.
#[tactic(auto, unfolding(crate::specs::HeaderReading::port_list_at))]
fn port_list(alloc: Global, tokens: &[Token], at: usize, nesting_left: u32) -> Read<Ports>
    requires short { length tokens.now < 2 ^ 32 }
    requires inside { at ≤ length tokens.now }
    ensures gives { Gives seen_ports result (port_list_at tokens.now nesting_left at) }
    ensures inside { IfOk result (Inside tokens.now) }
{
    let (first, next) = declared_port(alloc, tokens, at, nesting_left)?;
    let (list, end) = ports(alloc, tokens, next, nesting_left, first)?;
    Ok((nodes::declared_ports(list), end))
}

/// `NAME,+ ')'`
#[tactic(auto, unfolding(crate::specs::HeaderReading::name_list_at, crate::specs::HeaderReading::close_names_at))]
fn name_list(alloc: Global, tokens: &[Token], at: usize) -> Read<Ports>
    requires short { length tokens.now < 2 ^ 32 }
    requires inside { at ≤ length tokens.now }
    ensures gives { Gives seen_ports result (name_list_at tokens.now at) }
    ensures inside { IfOk result (Inside tokens.now) }
{
    let (names, close) = identifiers(alloc, tokens, at)?;
    if stands(tokens, close, Terminal::Equals) {
        return Err(Stop::Fault(Fault::Unsupported(close)));
    }
    let end = expect(tokens, Terminal::Close, close)?;
    Ok((nodes::name_ports(names), end))
}

/// `ports? ')'`
#[tactic(auto, unfolding(crate::specs::HeaderReading::ports_behind_at, crate::specs::HeaderReading::some_ports_at))]
fn ports_behind(alloc: Global, tokens: &[Token], at: usize, nesting_left: u32) -> Read<Ports>
    requires short { length tokens.now < 2 ^ 32 }
    requires inside { at ≤ length tokens.now }
    ensures gives { Gives seen_ports result (ports_behind_at tokens.now nesting_left at) }
    ensures inside { IfOk result (Inside tokens.now) }
{
    if stands(tokens, at, Terminal::Close) {
        return Ok((Ports::None, at + 1));
    }
    if is_direction(mark_at(tokens, at)) {
        return port_list(alloc, tokens, at, nesting_left);
    }
    name_list(alloc, tokens, at)
}

/// `('(' ports? ')')?`
#[tactic(auto, unfolding(crate::specs::HeaderReading::header_ports_at, crate::specs::HeaderReading::ports_in_parens_at))]
pub fn header_ports(alloc: Global, tokens: &[Token], at: usize, nesting_left: u32) -> Read<Ports>
    requires short { length tokens.now < 2 ^ 32 }
    requires inside { at ≤ length tokens.now }
    ensures gives { Gives seen_ports result (header_ports_at tokens.now nesting_left at) }
    ensures inside { IfOk result (Inside tokens.now) }
{
    if !stands(tokens, at, Terminal::Open) {
        return Ok((Ports::None, at));
    }
    let next = expect(tokens, Terminal::Open, at)?;
    ports_behind(alloc, tokens, next, nesting_left)
}
