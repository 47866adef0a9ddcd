//! What stands in initial blocks (IEEE 1364-2005, 9.9.1 and A.6.2).
ghost use Rattle.std.specs.Prelude.{◌≡◌, ◌+◌, ◌<◌, ◌≤◌, ◌^◌, length, IfOk};
ghost use Rattle.v_tree.specs.Faults.{Gives};
ghost use Rattle.v_tree.specs.Marks.{mark_at};
ghost use Rattle.v_parts.specs.Seen.{Inside};
ghost use Rattle.v_statements.specs.StatementSeen.{seen_statement, seen_statements};
ghost use Rattle.v_statements.specs.StatementReading.{body_at};
ghost use Rattle.v_statements.specs.Initials.{is_left_out};
ghost use Rattle.v_statements.specs.InitialReading.{initial_at, initial_below, initial_block_at, initial_assign_at, initial_equals_at, initial_right_at, initial_value_at};

use crate::statement_nodes as nodes;
use crate::statement_parts::label_if;
use loc_base::Name;
use std::alloc::Global;
use v_lexer::types::Token;
use v_parts::{Read, bare, name, value};
use v_syntax::{AssignKind, Statement};
use v_tree::{Fault, Stop, Terminal, expect, lower, mark_at, no_place, site_of, stands};

/// A form that another statement has.
fn is_left_out(mark: Terminal) -> bool
    ensures { result ≡ is_left_out mark }
{
    matches!(
        mark,
        Terminal::Semicolon
            | Terminal::Hash
            | Terminal::If
            | Terminal::Case
            | Terminal::Casez
            | Terminal::For
            | Terminal::OpenBrace
    )
}

/// `expr ';'` behind the name that stands from `from` up to `behind`.
#[tactic(auto, unfolding(crate::specs::InitialReading::initial_value_at))]
fn initial_value(
    alloc: Global,
    tokens: &[Token],
    from: usize,
    name: Name,
    behind: usize,
    at: usize,
    nesting_left: u32,
) -> Read<Statement>
    requires short { length tokens.now < 2 ^ 32 }
    requires before { from < 2 ^ 32 }
    requires inside { at ≤ length tokens.now }
    ensures gives { Gives seen_statement result (initial_value_at tokens.now nesting_left from name behind at) }
    ensures inside { IfOk result (Inside tokens.now) }
{
    let (value, semicolon) = value(alloc, tokens, at, nesting_left)?;
    let end = expect(tokens, Terminal::Semicolon, semicolon)?;
    let target = bare(alloc, site_of(tokens, from, behind), name);
    let site = site_of(tokens, from, end);
    Ok((
        nodes::assignment(site, target, AssignKind::Blocking, None, value),
        end,
    ))
}

/// `'=' expr ';'` behind the name that begins at `from`.
#[tactic(auto, unfolding(crate::specs::InitialReading::initial_equals_at, crate::specs::InitialReading::initial_right_at))]
fn initial_equals(
    alloc: Global,
    tokens: &[Token],
    from: usize,
    name: Name,
    at: usize,
    nesting_left: u32,
) -> Read<Statement>
    requires short { length tokens.now < 2 ^ 32 }
    requires before { from < 2 ^ 32 }
    requires inside { at ≤ length tokens.now }
    ensures gives { Gives seen_statement result (initial_equals_at tokens.now nesting_left from name at) }
    ensures inside { IfOk result (Inside tokens.now) }
{
    if stands(tokens, at, Terminal::OpenBracket) {
        return Err(Stop::Fault(Fault::Unsupported(at)));
    }
    if stands(tokens, at, Terminal::LessEqual) {
        return Err(Stop::Fault(Fault::Unsupported(at)));
    }
    let next = expect(tokens, Terminal::Equals, at)?;
    if stands(tokens, next, Terminal::Hash) {
        return Err(Stop::Fault(Fault::Unsupported(next)));
    }
    initial_value(alloc, tokens, from, name, at, next, nesting_left)
}

/// `NAME '=' expr ';'`
#[tactic(auto, unfolding(crate::specs::InitialReading::initial_assign_at))]
fn initial_assign(alloc: Global, tokens: &[Token], at: usize, nesting_left: u32) -> Read<Statement>
    requires short { length tokens.now < 2 ^ 32 }
    requires inside { at ≤ length tokens.now }
    ensures gives { Gives seen_statement result (initial_assign_at tokens.now nesting_left at) }
    ensures inside { IfOk result (Inside tokens.now) }
{
    let (name, equals) = name(alloc, tokens, at)?;
    initial_equals(alloc, tokens, at, name, equals, nesting_left)
}

/// `'begin' (':' NAME)? initial* 'end' | NAME '=' expr ';'`
#[tactic(auto, using(crate::proofs::InitialSteps::initial_over), unfolding(crate::specs::InitialReading::initial_with))]
#[cycle(initial)]
pub fn initial(alloc: Global, tokens: &[Token], at: usize, nesting_left: u32) -> Read<Statement>
    requires short { length tokens.now < 2 ^ 32 }
    requires inside { at ≤ length tokens.now }
    ensures gives { Gives seen_statement result (initial_at tokens.now nesting_left at) }
    ensures inside { IfOk result (Inside tokens.now) }
{
    if stands(tokens, at, Terminal::Begin) {
        return initial_block(alloc, tokens, at, nesting_left);
    }
    if is_left_out(mark_at(tokens, at)) {
        return Err(Stop::Fault(Fault::Unsupported(at)));
    }
    initial_assign(alloc, tokens, at, nesting_left)
}

/// `'begin' (':' NAME)? initial* 'end'`
#[tactic(auto, using(crate::proofs::InitialSteps::initial_below_less), unfolding(crate::specs::InitialReading::initial_block_at, crate::specs::StatementReading::close_block_at))]
#[cycle(initial)]
fn initial_block(alloc: Global, tokens: &[Token], at: usize, nesting_left: u32) -> Read<Statement>
    requires short { length tokens.now < 2 ^ 32 }
    requires inside { at < length tokens.now }
    ensures gives { Gives seen_statement result (initial_block_at tokens.now nesting_left (initial_below tokens.now nesting_left) at) }
    ensures inside { IfOk result (Inside tokens.now) }
{
    let nesting_left = lower(nesting_left, at)?;
    let (label, next) = label_if(alloc, tokens, at + 1)?;
    let (body, end) = initials(alloc, tokens, next, nesting_left)?;
    Ok((nodes::block(site_of(tokens, at, end), label, body), end))
}

/// `initial* 'end'`
#[tactic(auto, unfolding(crate::specs::StatementReading::body_at))]
#[cycle(initial)]
fn initials(alloc: Global, tokens: &[Token], at: usize, nesting_left: u32) -> Read<Vec<Statement>>
    requires short { length tokens.now < 2 ^ 32 }
    requires inside { at ≤ length tokens.now }
    ensures gives { Gives seen_statements result (body_at tokens.now (initial_at tokens.now nesting_left) at) }
    ensures inside { IfOk result (Inside tokens.now) }
{
    let mut list = Vec::new(alloc);
    let mut end = at;
    for _ in 0..tokens.len() {
        if stands(tokens, end, Terminal::End) {
            return Ok((list, end + 1));
        }
        let (part, next) = initial(alloc, tokens, end, nesting_left)?;
        list.push(part)?;
        end = next;
    }
    Err(Stop::Fault(no_place(tokens, end)))
}
