//! Statements (IEEE 1364-2005, clause 9 and A.6).
ghost use Rattle.std.specs.Prelude.{◌+◌, ◌<◌, ◌≤◌, ◌^◌, length, IfOk};
ghost use Rattle.v_tree.specs.Faults.{Gives};
ghost use Rattle.v_parts.specs.Seen.{Inside};
ghost use Rattle.v_syntax.specs.StatementTree.{case_item_of, is_default};
ghost use Rattle.v_statements.specs.StatementSeen.{seen_statement, seen_statements, seen_case_item, seen_case_items};
ghost use Rattle.v_statements.specs.StatementReading.{statement_at, statement_below, block_at, body_at, delayed_at, if_at, case_at, case_items_at, case_item_at, labelled_at, default_at, loop_at};

use crate::statement_nodes as nodes;
use crate::statement_parts::{assign, colon_if, in_parens, label_if, labels, loop_head};
use std::alloc::Global;
use v_lexer::types::Token;
use v_parts::{Read, delay};
use v_syntax::{CaseItem, CaseKind, Statement};
use v_tree::{Stop, Terminal, expect, lower, no_place, site_of, stands};

/// A statement, where `nesting_left` levels of nesting are left to it.
#[tactic(auto, using(crate::proofs::StatementSteps::statement_over), unfolding(crate::specs::StatementReading::statement_with))]
#[cycle(statement)]
pub fn statement(alloc: Global, tokens: &[Token], at: usize, nesting_left: u32) -> Read<Statement>
    requires short { length tokens.now < 2 ^ 32 }
    requires inside { at ≤ length tokens.now }
    ensures gives { Gives seen_statement result (statement_at tokens.now nesting_left at) }
    ensures inside { IfOk result (Inside tokens.now) }
{
    if stands(tokens, at, Terminal::Semicolon) {
        return Ok((nodes::empty(site_of(tokens, at, at + 1)), at + 1));
    }
    if stands(tokens, at, Terminal::Begin) {
        return block(alloc, tokens, at, nesting_left);
    }
    if stands(tokens, at, Terminal::Hash) {
        return delayed(alloc, tokens, at, nesting_left);
    }
    if stands(tokens, at, Terminal::If) {
        return condition(alloc, tokens, at, nesting_left);
    }
    if stands(tokens, at, Terminal::Case) {
        return cases(alloc, tokens, at, nesting_left, CaseKind::Case);
    }
    if stands(tokens, at, Terminal::Casez) {
        return cases(alloc, tokens, at, nesting_left, CaseKind::Casez);
    }
    if stands(tokens, at, Terminal::For) {
        return repeated(alloc, tokens, at, nesting_left);
    }
    assign(alloc, tokens, at, nesting_left)
}

/// `'begin' (':' NAME)? stmt* 'end'`
#[tactic(auto, using(crate::proofs::StatementSteps::statement_below_less), unfolding(crate::specs::StatementReading::block_at, crate::specs::StatementReading::close_block_at))]
#[cycle(statement)]
fn block(alloc: Global, tokens: &[Token], at: usize, nesting_left: u32) -> Read<Statement>
    requires short { length tokens.now < 2 ^ 32 }
    requires inside { at < length tokens.now }
    ensures gives { Gives seen_statement result (block_at tokens.now nesting_left (statement_below tokens.now nesting_left) at) }
    ensures inside { IfOk result (Inside tokens.now) }
{
    let nesting_left = lower(nesting_left, at)?;
    let (label, next) = label_if(alloc, tokens, at + 1)?;
    let (body, end) = statements(alloc, tokens, next, nesting_left)?;
    Ok((nodes::block(site_of(tokens, at, end), label, body), end))
}

/// `stmt* 'end'`
#[tactic(auto, unfolding(crate::specs::StatementReading::body_at))]
#[cycle(statement)]
fn statements(alloc: Global, tokens: &[Token], at: usize, nesting_left: u32) -> Read<Vec<Statement>>
    requires short { length tokens.now < 2 ^ 32 }
    requires inside { at ≤ length tokens.now }
    ensures gives { Gives seen_statements result (body_at tokens.now (statement_at tokens.now nesting_left) at) }
    ensures inside { IfOk result (Inside tokens.now) }
{
    let mut list = Vec::new(alloc);
    let mut end = at;
    for _ in 0..tokens.len() {
        if stands(tokens, end, Terminal::End) {
            return Ok((list, end + 1));
        }
        let (part, next) = statement(alloc, tokens, end, nesting_left)?;
        list.push(part)?;
        end = next;
    }
    Err(Stop::Fault(no_place(tokens, end)))
}

/// `delay stmt`
#[tactic(auto, using(crate::proofs::StatementSteps::statement_below_less), unfolding(crate::specs::StatementReading::delayed_at))]
#[cycle(statement)]
fn delayed(alloc: Global, tokens: &[Token], at: usize, nesting_left: u32) -> Read<Statement>
    requires short { length tokens.now < 2 ^ 32 }
    requires inside { at < length tokens.now }
    ensures gives { Gives seen_statement result (delayed_at tokens.now nesting_left (statement_below tokens.now nesting_left) at) }
    ensures inside { IfOk result (Inside tokens.now) }
{
    let nesting_left = lower(nesting_left, at)?;
    let (delay, next) = delay(alloc, tokens, at, nesting_left)?;
    let (body, end) = statement(alloc, tokens, next, nesting_left)?;
    let site = site_of(tokens, at, end);
    Ok((nodes::delayed(alloc, site, delay, body)?, end))
}

/// `'if' '(' expr ')' stmt ('else' stmt)?`
#[tactic(auto, using(crate::proofs::StatementSteps::statement_below_less), unfolding(crate::specs::StatementReading::if_at, crate::specs::StatementReading::else_at))]
#[cycle(statement)]
fn condition(alloc: Global, tokens: &[Token], at: usize, nesting_left: u32) -> Read<Statement>
    requires short { length tokens.now < 2 ^ 32 }
    requires inside { at < length tokens.now }
    ensures gives { Gives seen_statement result (if_at tokens.now nesting_left (statement_below tokens.now nesting_left) at) }
    ensures inside { IfOk result (Inside tokens.now) }
{
    let nesting_left = lower(nesting_left, at)?;
    let (condition, next) = in_parens(alloc, tokens, at + 1, nesting_left)?;
    let (first, end) = statement(alloc, tokens, next, nesting_left)?;
    if !stands(tokens, end, Terminal::Else) {
        let site = site_of(tokens, at, end);
        return Ok((nodes::if_then(alloc, site, condition, first)?, end));
    }
    let (other, end) = statement(alloc, tokens, end + 1, nesting_left)?;
    let site = site_of(tokens, at, end);
    Ok((nodes::if_else(alloc, site, condition, first, other)?, end))
}

/// `('case' | 'casez') '(' expr ')' citem* 'endcase'`, at least one item.
#[tactic(auto, using(crate::proofs::StatementSteps::statement_below_less), unfolding(crate::specs::StatementReading::case_at))]
#[cycle(statement)]
fn cases(
    alloc: Global,
    tokens: &[Token],
    at: usize,
    nesting_left: u32,
    kind: CaseKind,
) -> Read<Statement>
    requires short { length tokens.now < 2 ^ 32 }
    requires inside { at < length tokens.now }
    ensures gives { Gives seen_statement result (case_at tokens.now nesting_left kind (statement_below tokens.now nesting_left) at) }
    ensures inside { IfOk result (Inside tokens.now) }
{
    let nesting_left = lower(nesting_left, at)?;
    let (subject, next) = in_parens(alloc, tokens, at + 1, nesting_left)?;
    let (first, next) = case_item(alloc, tokens, next, nesting_left, kind, false)?;
    let (items, end) = case_items(alloc, tokens, next, nesting_left, kind, first)?;
    Ok((
        nodes::choice(site_of(tokens, at, end), kind, subject, items),
        end,
    ))
}

/// `citem* 'endcase'` behind the first item, one default at most.
#[tactic(auto, unfolding(crate::specs::StatementReading::case_items_at))]
#[cycle(statement)]
fn case_items(
    alloc: Global,
    tokens: &[Token],
    at: usize,
    nesting_left: u32,
    kind: CaseKind,
    first: CaseItem,
) -> Read<Vec<CaseItem>>
    requires short { length tokens.now < 2 ^ 32 }
    requires inside { at ≤ length tokens.now }
    ensures gives { Gives seen_case_items result
        (case_items_at tokens.now nesting_left kind (statement_at tokens.now nesting_left) (case_item_of first) at) }
    ensures inside { IfOk result (Inside tokens.now) }
{
    let mut list = Vec::new(alloc);
    let mut had = nodes::is_default(&first);
    let mut end = at;
    list.push(first)?;
    for _ in 0..tokens.len() {
        if stands(tokens, end, Terminal::Endcase) {
            return Ok((list, end + 1));
        }
        let (part, next) = case_item(alloc, tokens, end, nesting_left, kind, had)?;
        had = nodes::has_default(had, &part);
        list.push(part)?;
        end = next;
    }
    Err(Stop::Fault(no_place(tokens, end)))
}

/// `label,+ ':' stmt | 'default' ':'? stmt`, where a second default has no place.
#[tactic(auto, unfolding(crate::specs::StatementReading::case_item_at))]
#[cycle(statement)]
fn case_item(
    alloc: Global,
    tokens: &[Token],
    at: usize,
    nesting_left: u32,
    kind: CaseKind,
    had: bool,
) -> Read<CaseItem>
    requires short { length tokens.now < 2 ^ 32 }
    requires inside { at ≤ length tokens.now }
    ensures gives { Gives seen_case_item result (case_item_at tokens.now nesting_left kind (statement_at tokens.now nesting_left) had at) }
    ensures inside { IfOk result (Inside tokens.now) }
{
    if stands(tokens, at, Terminal::Default) {
        if had {
            return Err(Stop::Fault(no_place(tokens, at)));
        }
        return otherwise(alloc, tokens, at, nesting_left);
    }
    labelled(alloc, tokens, at, nesting_left, kind)
}

/// `label,+ ':' stmt`
#[tactic(auto, unfolding(crate::specs::StatementReading::labelled_at))]
#[cycle(statement)]
fn labelled(
    alloc: Global,
    tokens: &[Token],
    at: usize,
    nesting_left: u32,
    kind: CaseKind,
) -> Read<CaseItem>
    requires short { length tokens.now < 2 ^ 32 }
    requires inside { at ≤ length tokens.now }
    ensures gives { Gives seen_case_item result (labelled_at tokens.now nesting_left kind (statement_at tokens.now nesting_left) at) }
    ensures inside { IfOk result (Inside tokens.now) }
{
    let (labels, colon) = labels(alloc, tokens, at, nesting_left, kind)?;
    let next = expect(tokens, Terminal::Colon, colon)?;
    let (body, end) = statement(alloc, tokens, next, nesting_left)?;
    Ok((nodes::labelled(site_of(tokens, at, end), labels, body), end))
}

/// `'default' ':'? stmt`
#[tactic(auto, unfolding(crate::specs::StatementReading::default_at))]
#[cycle(statement)]
fn otherwise(alloc: Global, tokens: &[Token], at: usize, nesting_left: u32) -> Read<CaseItem>
    requires short { length tokens.now < 2 ^ 32 }
    requires inside { at ≤ length tokens.now }
    ensures gives { Gives seen_case_item result (default_at tokens.now (statement_at tokens.now nesting_left) at) }
    ensures inside { IfOk result (Inside tokens.now) }
{
    let next = expect(tokens, Terminal::Default, at)?;
    let (_colon, next) = colon_if(tokens, next)?;
    let (body, end) = statement(alloc, tokens, next, nesting_left)?;
    Ok((nodes::otherwise(site_of(tokens, at, end), body), end))
}

/// `'for' head stmt`
#[tactic(auto, using(crate::proofs::StatementSteps::statement_below_less), unfolding(crate::specs::StatementReading::loop_at))]
#[cycle(statement)]
fn repeated(alloc: Global, tokens: &[Token], at: usize, nesting_left: u32) -> Read<Statement>
    requires short { length tokens.now < 2 ^ 32 }
    requires inside { at < length tokens.now }
    ensures gives { Gives seen_statement result (loop_at tokens.now nesting_left (statement_below tokens.now nesting_left) at) }
    ensures inside { IfOk result (Inside tokens.now) }
{
    let nesting_left = lower(nesting_left, at)?;
    let (head, next) = loop_head(alloc, tokens, at + 1, nesting_left)?;
    let (body, end) = statement(alloc, tokens, next, nesting_left)?;
    let site = site_of(tokens, at, end);
    Ok((nodes::repeated(alloc, site, head, body)?, end))
}
