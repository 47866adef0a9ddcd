//! The words and the types of declarations (IEEE 1364-2005, 4.2, 4.3, 4.10 and A.2).
ghost use Rattle.std.specs.Prelude.{◌≡◌, ◌+◌, ◌<◌, ◌≤◌, ◌^◌, length, IfOk};
ghost use Rattle.v_tree.specs.Faults.{Gives};
ghost use Rattle.v_parts.specs.Seen.{as_is, Inside};
ghost use Rattle.v_declarations.specs.Types.{is_direction, is_output_reg};
ghost use Rattle.v_declarations.specs.TypeSeen.{seen_parameter_type};
ghost use Rattle.v_declarations.specs.TypeReading.{direction_at, net_if_at, signed_if_at, vector_type_at, parameter_type_at};

use std::alloc::Global;
use v_lexer::types::Token;
use v_parts::{Read, range_if};
use v_syntax::{Direction, NetKind, ParameterType, Range};
use v_tree::{Stop, Terminal, no_place, stands};

/// The words and the range of a port, or of ports, that begin at `from`.
pub struct PortWords {
    pub from: usize,
    pub direction: Direction,
    pub net: Option<NetKind>,
    pub signed: bool,
    pub range: Option<Range>,
}

/// `'input' | 'output'`
#[tactic(auto, unfolding(crate::specs::TypeReading::direction_at))]
pub fn direction(tokens: &[Token], at: usize) -> Read<Direction>
    ensures gives { Gives as_is result (direction_at tokens.now at) }
    ensures inside { IfOk result (Inside tokens.now) }
{
    if stands(tokens, at, Terminal::Input) {
        return Ok((Direction::Input, at + 1));
    }
    if stands(tokens, at, Terminal::Output) {
        return Ok((Direction::Output, at + 1));
    }
    Err(Stop::Fault(no_place(tokens, at)))
}

/// Whether it is the word of a direction.
pub fn is_direction(mark: Terminal) -> bool
    ensures { result ≡ is_direction mark }
{
    matches!(mark, Terminal::Input | Terminal::Output)
}

/// `('wire' | 'reg')?`
#[tactic(auto, unfolding(crate::specs::TypeReading::net_if_at))]
pub fn net_if(tokens: &[Token], at: usize) -> Read<Option<NetKind>>
    requires inside { at ≤ length tokens.now }
    ensures gives { Gives as_is result (net_if_at tokens.now at) }
    ensures inside { IfOk result (Inside tokens.now) }
{
    if stands(tokens, at, Terminal::Wire) {
        return Ok((Some(NetKind::Wire), at + 1));
    }
    if stands(tokens, at, Terminal::Reg) {
        return Ok((Some(NetKind::Reg), at + 1));
    }
    Ok((None, at))
}

/// Whether those words are `output reg`.
pub fn is_output_reg(direction: Direction, net: Option<NetKind>) -> bool
    ensures { result ≡ is_output_reg direction net }
{
    match direction {
        Direction::Output => matches!(net, Some(NetKind::Reg)),
        Direction::Input => false,
    }
}

/// `'signed'?`
#[tactic(auto, unfolding(crate::specs::TypeReading::signed_if_at))]
pub fn signed_if(tokens: &[Token], at: usize) -> Read<bool>
    requires inside { at ≤ length tokens.now }
    ensures gives { Gives as_is result (signed_if_at tokens.now at) }
    ensures inside { IfOk result (Inside tokens.now) }
{
    if stands(tokens, at, Terminal::Signed) {
        return Ok((true, at + 1));
    }
    Ok((false, at))
}

/// `'signed'? range?`
#[tactic(auto, unfolding(crate::specs::TypeReading::vector_type_at))]
fn vector_type(alloc: Global, tokens: &[Token], at: usize, nesting_left: u32) -> Read<ParameterType>
    requires short { length tokens.now < 2 ^ 32 }
    requires inside { at ≤ length tokens.now }
    ensures gives { Gives seen_parameter_type result (vector_type_at tokens.now nesting_left at) }
    ensures inside { IfOk result (Inside tokens.now) }
{
    let (signed, next) = signed_if(tokens, at)?;
    let (range, end) = range_if(alloc, tokens, next, nesting_left)?;
    Ok((ParameterType::Vector { signed, range }, end))
}

/// `'integer' | 'signed'? range?`
#[tactic(auto, unfolding(crate::specs::TypeReading::parameter_type_at))]
pub fn parameter_type(
    alloc: Global,
    tokens: &[Token],
    at: usize,
    nesting_left: u32,
) -> Read<ParameterType>
    requires short { length tokens.now < 2 ^ 32 }
    requires inside { at ≤ length tokens.now }
    ensures gives { Gives seen_parameter_type result (parameter_type_at tokens.now nesting_left at) }
    ensures inside { IfOk result (Inside tokens.now) }
{
    if stands(tokens, at, Terminal::Integer) {
        return Ok((ParameterType::Integer, at + 1));
    }
    vector_type(alloc, tokens, at, nesting_left)
}
