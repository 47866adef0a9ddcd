//! What stands in statements beside expressions and left sides (IEEE 1364-2005, A.6).
ghost use Rattle.std.specs.Prelude.{◌≡◌, ◌+◌, ◌<◌, ◌≤◌, ◌^◌, length, IfOk};
ghost use Rattle.v_tree.specs.Faults.{Gives};
ghost use Rattle.v_lexer.specs.declared.types.terminal.Terminal.TheVariants as marks;
ghost use Rattle.v_syntax.specs.Tree.{Tree, tree_of};
ghost use Rattle.v_syntax.specs.PartTree.{left_of};
ghost use Rattle.v_parts.specs.Seen.{as_is, seen_value, seen_values, Inside};
ghost use Rattle.v_tree.specs.Marks.{mark_at};
ghost use Rattle.v_statements.specs.Statements.{may_follow_label};
ghost use Rattle.v_statements.specs.StatementSeen.{seen_head, seen_statement};
ghost use Rattle.v_parts.specs.Reading.{optional_at, list_at};
ghost use Rattle.v_statements.specs.StatementReading.{label_at, in_parens_at, casez_label_at, case_label_at, colon_at, loop_step_at, loop_condition_at, head_at, assign_kind_at, assigned_at, assign_at};

use crate::statement_nodes::assignment;
use std::alloc::Global;
use v_lexer::types::Token;
use v_parts::{PartReader, Read, delay_if, identifier, left, listed, value};
use v_syntax::{AssignKind, CaseKind, Expr, Identifier, Left, LoopHead, Statement};
use v_tree::{Fault, Stop, Terminal, expect, mark_at, no_place, read_expression, site_of, stands};

/// `(':' NAME)?`
#[tactic(auto, unfolding(v_parts::specs::Reading::optional_at, crate::specs::StatementReading::label_at))]
pub fn label_if(alloc: Global, tokens: &[Token], at: usize) -> Read<Option<Identifier>>
    requires short { length tokens.now < 2 ^ 32 }
    requires inside { at ≤ length tokens.now }
    ensures gives { Gives as_is result (optional_at tokens.now marks.Colon (label_at tokens.now) at) }
    ensures inside { IfOk result (Inside tokens.now) }
{
    if !stands(tokens, at, Terminal::Colon) {
        return Ok((None, at));
    }
    let next = expect(tokens, Terminal::Colon, at)?;
    let (label, end) = identifier(alloc, tokens, next)?;
    Ok((Some(label), end))
}

/// `'(' expr ')'`, whose parentheses belong to the statement around.
#[tactic(auto, unfolding(crate::specs::StatementReading::in_parens_at))]
pub fn in_parens(alloc: Global, tokens: &[Token], at: usize, nesting_left: u32) -> Read<Expr>
    requires short { length tokens.now < 2 ^ 32 }
    ensures gives { Gives seen_value result (in_parens_at tokens.now nesting_left at) }
    ensures inside { IfOk result (Inside tokens.now) }
{
    let open = expect(tokens, Terminal::Open, at)?;
    let (value, close) = value(alloc, tokens, open, nesting_left)?;
    let end = expect(tokens, Terminal::Close, close)?;
    Ok((value, end))
}

/// Whether a comma, a colon or the end stands there.
fn follows_label(tokens: &[Token], at: usize) -> bool
    ensures { result ≡ may_follow_label (mark_at tokens.now at) }
{
    matches!(
        mark_at(tokens, at),
        Terminal::Comma | Terminal::Colon | Terminal::Nothing
    )
}

/// A number with wildcard digits is a whole label, so a comma or a colon follows it.
#[tactic(auto, unfolding(crate::specs::StatementReading::casez_label_at))]
fn casez_label(alloc: Global, tokens: &[Token], at: usize, nesting_left: u32) -> Read<Expr>
    requires short { length tokens.now < 2 ^ 32 }
    requires inside { at ≤ length tokens.now }
    ensures gives { Gives seen_value result (casez_label_at tokens.now nesting_left at) }
    ensures inside { IfOk result (Inside tokens.now) }
{
    let found = read_expression(alloc, tokens, at, nesting_left)?;
    if stands(tokens, at, Terminal::Wild) {
        if !follows_label(tokens, found.end) {
            return Err(Stop::Fault(Fault::Unsupported(at)));
        }
    }
    Ok((found.tree, found.end))
}

/// A label, which in a `casez` may be a number with wildcard digits.
fn label(
    alloc: Global,
    tokens: &[Token],
    at: usize,
    nesting_left: u32,
    kind: CaseKind,
) -> Read<Expr>
    requires short { length tokens.now < 2 ^ 32 }
    requires inside { at ≤ length tokens.now }
    ensures gives { Gives seen_value result (case_label_at tokens.now nesting_left kind at) }
    ensures inside { IfOk result (Inside tokens.now) }
{
    match kind {
        CaseKind::Case => value(alloc, tokens, at, nesting_left),
        CaseKind::Casez => casez_label(alloc, tokens, at, nesting_left),
    }
}

#[derive(Drop)]
struct LabelReader {
    nesting_left: u32,
    kind: CaseKind,
}

impl PartReader for LabelReader {
    type Part = Expr;

    ghost Plain = { Tree };

    ghost plain = { tree_of };

    ghost part_at = { λ reader tokens. case_label_at tokens reader.nesting_left reader.kind };

    fn read(&self, alloc: Global, tokens: &[Token], at: usize) -> Read<Expr> {
        label(alloc, tokens, at, self.nesting_left, self.kind)
    }
}

/// `label,+`
pub fn labels(
    alloc: Global,
    tokens: &[Token],
    at: usize,
    nesting_left: u32,
    kind: CaseKind,
) -> Read<Vec<Expr>>
    requires short { length tokens.now < 2 ^ 32 }
    requires inside { at ≤ length tokens.now }
    ensures gives { Gives seen_values result (list_at tokens.now (case_label_at tokens.now nesting_left kind) at) }
    ensures inside { IfOk result (Inside tokens.now) }
{
    listed(alloc, tokens, at, &LabelReader { nesting_left, kind })
}

/// Whether a colon stands there, and the place behind it.
#[tactic(auto, unfolding(crate::specs::StatementReading::colon_at))]
pub fn colon_if(tokens: &[Token], at: usize) -> Read<bool>
    requires inside { at ≤ length tokens.now }
    ensures gives { Gives as_is result (colon_at tokens.now at) }
    ensures inside { IfOk result (Inside tokens.now) }
{
    if stands(tokens, at, Terminal::Colon) {
        return Ok((true, at + 1));
    }
    Ok((false, at))
}

/// `'(' NAME '=' expr ';'` of a loop that begins at `from`.
#[derive(Drop)]
struct LoopStart {
    from: usize,
    variable: Identifier,
    start: Expr,
}

/// `NAME '=' expr ')'` behind the condition.
#[tactic(auto, unfolding(crate::specs::StatementReading::loop_step_at))]
fn loop_step(
    alloc: Global,
    tokens: &[Token],
    first: LoopStart,
    condition: Expr,
    at: usize,
    nesting_left: u32,
) -> Read<LoopHead>
    requires short { length tokens.now < 2 ^ 32 }
    requires before { first.from < 2 ^ 32 }
    requires inside { at ≤ length tokens.now }
    ensures gives { Gives seen_head result (loop_step_at tokens.now nesting_left first.from first.variable (tree_of first.start) (tree_of condition) at) }
    ensures inside { IfOk result (Inside tokens.now) }
{
    let LoopStart {
        from,
        variable,
        start,
    } = first;
    let (next, equals) = identifier(alloc, tokens, at)?;
    let step_at = expect(tokens, Terminal::Equals, equals)?;
    let (step, close) = value(alloc, tokens, step_at, nesting_left)?;
    let end = expect(tokens, Terminal::Close, close)?;
    let site = site_of(tokens, from, end);
    let head = LoopHead {
        site,
        variable,
        start,
        condition,
        next,
        step,
    };
    Ok((head, end))
}

/// `expr ';' NAME '=' expr ')'` behind the start.
#[tactic(auto, unfolding(crate::specs::StatementReading::loop_condition_at))]
fn loop_condition(
    alloc: Global,
    tokens: &[Token],
    first: LoopStart,
    at: usize,
    nesting_left: u32,
) -> Read<LoopHead>
    requires short { length tokens.now < 2 ^ 32 }
    requires before { first.from < 2 ^ 32 }
    requires inside { at ≤ length tokens.now }
    ensures gives { Gives seen_head result (loop_condition_at tokens.now nesting_left first.from first.variable (tree_of first.start) at) }
    ensures inside { IfOk result (Inside tokens.now) }
{
    let (condition, semicolon) = value(alloc, tokens, at, nesting_left)?;
    let next = expect(tokens, Terminal::Semicolon, semicolon)?;
    loop_step(alloc, tokens, first, condition, next, nesting_left)
}

/// `'(' NAME '=' expr ';' expr ';' NAME '=' expr ')'`
#[tactic(auto, unfolding(crate::specs::StatementReading::head_at))]
pub fn loop_head(alloc: Global, tokens: &[Token], from: usize, nesting_left: u32) -> Read<LoopHead>
    requires short { length tokens.now < 2 ^ 32 }
    requires inside { from ≤ length tokens.now }
    ensures gives { Gives seen_head result (head_at tokens.now nesting_left from) }
    ensures inside { IfOk result (Inside tokens.now) }
{
    let open = expect(tokens, Terminal::Open, from)?;
    let (variable, equals) = identifier(alloc, tokens, open)?;
    let next = expect(tokens, Terminal::Equals, equals)?;
    let (start, semicolon) = value(alloc, tokens, next, nesting_left)?;
    let next = expect(tokens, Terminal::Semicolon, semicolon)?;
    let first = LoopStart {
        from,
        variable,
        start,
    };
    loop_condition(alloc, tokens, first, next, nesting_left)
}

/// `'=' | '<='`
#[tactic(auto, unfolding(crate::specs::StatementReading::assign_kind_at))]
fn assign_kind(tokens: &[Token], at: usize) -> Read<AssignKind>
    ensures gives { Gives as_is result (assign_kind_at tokens.now at) }
    ensures inside { IfOk result (Inside tokens.now) }
{
    if stands(tokens, at, Terminal::Equals) {
        return Ok((AssignKind::Blocking, at + 1));
    }
    if stands(tokens, at, Terminal::LessEqual) {
        return Ok((AssignKind::Nonblocking, at + 1));
    }
    Err(Stop::Fault(no_place(tokens, at)))
}

/// `left ('=' | '<=')` of an assignment that begins at `from`.
struct Target {
    from: usize,
    left: Left,
    kind: AssignKind,
}

/// `delay? expr ';'` behind that.
#[tactic(auto, unfolding(crate::specs::StatementReading::assigned_at))]
fn assigned(
    alloc: Global,
    tokens: &[Token],
    target: Target,
    at: usize,
    nesting_left: u32,
) -> Read<Statement>
    requires short { length tokens.now < 2 ^ 32 }
    requires before { target.from < 2 ^ 32 }
    requires inside { at ≤ length tokens.now }
    ensures gives { Gives seen_statement result (assigned_at tokens.now nesting_left target.from (left_of target.left) target.kind at) }
    ensures inside { IfOk result (Inside tokens.now) }
{
    let Target { from, left, kind } = target;
    let (delay, next) = delay_if(alloc, tokens, at, nesting_left)?;
    let (value, semicolon) = value(alloc, tokens, next, nesting_left)?;
    let end = expect(tokens, Terminal::Semicolon, semicolon)?;
    let site = site_of(tokens, from, end);
    Ok((assignment(site, left, kind, delay, value), end))
}

/// `left ('=' | '<=') delay? expr ';'`
#[tactic(auto, unfolding(crate::specs::StatementReading::assign_at))]
pub fn assign(alloc: Global, tokens: &[Token], from: usize, nesting_left: u32) -> Read<Statement>
    requires short { length tokens.now < 2 ^ 32 }
    requires inside { from ≤ length tokens.now }
    ensures gives { Gives seen_statement result (assign_at tokens.now nesting_left from) }
    ensures inside { IfOk result (Inside tokens.now) }
{
    let (left, next) = left(alloc, tokens, from, nesting_left)?;
    let (kind, at) = assign_kind(tokens, next)?;
    assigned(alloc, tokens, Target { from, left, kind }, at, nesting_left)
}
