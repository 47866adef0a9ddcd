//! The nodes of expressions, once what nests in them is read.
ghost use Rattle.std.specs.Prelude.{◌≡◌, ◌+◌, ◌<◌, ◌≤◌, ◌^◌, length, max, IfOk, Ok};
ghost use Rattle.v_syntax.specs.Tree as tree;
ghost use Rattle.v_syntax.specs.Tree.{tree_of};
ghost use Rattle.v_tree.specs.Sites.{site, text_at};
ghost use Rattle.v_tree.specs.Marks.{mark_at};
ghost use Rattle.v_lexer.specs.declared.types.terminal.Terminal.TheVariants as marks;
ghost use Rattle.v_tree.specs.Faults.{Gives};
ghost use Rattle.v_tree.specs.Found.{seen, seen_parts, seen_select, seen_selects, Sized, SizedParts, SizedSelect, SizedSelects};
ghost use Rattle.v_tree.specs.Reading.{above, close_bit, close_concat, close_part, close_parens, close_repeat, close_system};

use crate::fault::{Fault, Stop};
use crate::found::Found;
use crate::input::{expect, site};
use crate::make;
use crate::text::{name_of, number_of};
use std::alloc::Global;
use v_lexer::types::{Terminal, Token};
use v_syntax::{Binary, Expr, PartKind, Select, SystemFunction, Unary};

/// One level less, where one more still stands above a tree of so many levels.
pub fn above(levels_left: u32, used: u32, at: usize) -> Result<u32, Stop>
    ensures gives { Gives (λ n. n) result (above levels_left used at) }
    ensures less { IfOk result (λ n. n + 1 ≡ levels_left) }
    ensures rises { IfOk result (λ n. used ≤ n) }
{
    if used < levels_left {
        return Ok(levels_left - 1);
    }
    Err(Stop::Fault(Fault::Deep(at)))
}

/// The number at that place.
pub fn number(alloc: Global, tokens: &[Token], at: usize) -> Result<Found<Expr>, Stop>
    requires short { length tokens.now < 2 ^ 32 }
    requires number { mark_at tokens.now at ≡ marks.Number }
    ensures gives { Gives seen result (Ok (tree.number (site tokens.now at (at + 1)) (text_at tokens.now at), at + 1)) }
    ensures sized { IfOk result (Sized tokens.now 0) }
{
    let number = number_of(alloc, tokens, at)?;
    let site = site(tokens, at, at + 1);
    Ok(Found {
        tree: make::number(site, number),
        levels: 0,
        end: at + 1,
    })
}

/// The name at that place, with its selects.
pub fn name(
    alloc: Global,
    tokens: &[Token],
    at: usize,
    selects: Found<Vec<Select>>,
) -> Result<Found<Expr>, Stop>
    requires short { length tokens.now < 2 ^ 32 }
    requires name { mark_at tokens.now at ≡ marks.Name }
    requires sized { SizedSelects tokens.now selects.levels selects }
    ensures gives { Gives seen result
        (Ok (tree.name (site tokens.now at selects.end) (text_at tokens.now at) (seen_selects selects).0, selects.end)) }
    ensures sized { IfOk result (Sized tokens.now selects.levels) }
{
    let name = name_of(alloc, tokens, at)?;
    let site = site(tokens, at, selects.end);
    Ok(Found {
        tree: make::name(site, name, selects.tree),
        levels: selects.levels,
        end: selects.end,
    })
}

/// A unary operator before its operand.
pub fn negated(
    alloc: Global,
    tokens: &[Token],
    at: usize,
    operator: Unary,
    inner: Found<Expr>,
) -> Result<Found<Expr>, Stop>
    requires inside { at < 2 ^ 32 }
    requires few { inner.levels + 1 < 2 ^ 32 }
    requires sized { Sized tokens.now inner.levels inner }
    ensures gives { Gives seen result (Ok (tree.unary (site tokens.now at inner.end) operator (tree_of inner.tree), inner.end)) }
    ensures sized { IfOk result (Sized tokens.now (inner.levels + 1)) }
{
    let site = site(tokens, at, inner.end);
    Ok(Found {
        levels: inner.levels + 1,
        end: inner.end,
        tree: make::unary(alloc, site, operator, inner.tree)?,
    })
}

/// A binary operator between its operands, of which the left one begins at `at`.
pub fn joined(
    alloc: Global,
    tokens: &[Token],
    at: usize,
    operator: Binary,
    left: Found<Expr>,
    right: Found<Expr>,
) -> Result<Found<Expr>, Stop>
    requires inside { at < 2 ^ 32 }
    requires few_left { left.levels + 1 < 2 ^ 32 }
    requires few_right { right.levels + 1 < 2 ^ 32 }
    requires sized_left { Sized tokens.now left.levels left }
    requires sized_right { Sized tokens.now right.levels right }
    ensures gives { Gives seen result
        (Ok (tree.binary (site tokens.now at right.end) operator (tree_of left.tree) (tree_of right.tree), right.end)) }
    ensures sized { IfOk result (Sized tokens.now (max left.levels right.levels + 1)) }
{
    let site = site(tokens, at, right.end);
    Ok(Found {
        levels: left.levels.max(right.levels) + 1,
        end: right.end,
        tree: make::binary(alloc, site, operator, left.tree, right.tree)?,
    })
}

/// `condition ? then : other`
pub fn conditional(
    alloc: Global,
    tokens: &[Token],
    at: usize,
    condition: Found<Expr>,
    then: Found<Expr>,
    other: Found<Expr>,
) -> Result<Found<Expr>, Stop>
    requires inside { at < 2 ^ 32 }
    requires few_condition { condition.levels + 1 < 2 ^ 32 }
    requires few_then { then.levels + 1 < 2 ^ 32 }
    requires few_other { other.levels + 1 < 2 ^ 32 }
    requires sized_condition { Sized tokens.now condition.levels condition }
    requires sized_then { Sized tokens.now then.levels then }
    requires sized_other { Sized tokens.now other.levels other }
    ensures gives { Gives seen result
        (Ok (tree.conditional (site tokens.now at other.end) (tree_of condition.tree) (tree_of then.tree) (tree_of other.tree), other.end)) }
    ensures sized { IfOk result (Sized tokens.now (max condition.levels (max then.levels other.levels) + 1)) }
{
    let site = site(tokens, at, other.end);
    Ok(Found {
        levels: condition.levels.max(then.levels.max(other.levels)) + 1,
        end: other.end,
        tree: make::conditional(alloc, site, condition.tree, then.tree, other.tree)?,
    })
}

/// Parentheses around an expression.
#[tactic(auto, unfolding(crate::specs::Reading::close_parens))]
pub fn close_parens(
    alloc: Global,
    tokens: &[Token],
    at: usize,
    inner: Found<Expr>,
) -> Result<Found<Expr>, Stop>
    requires inside { at < 2 ^ 32 }
    requires sized { Sized tokens.now inner.levels inner }
    ensures gives { Gives seen result (close_parens tokens.now at (tree_of inner.tree) inner.end) }
    ensures sized { IfOk result (Sized tokens.now inner.levels) }
{
    let end = expect(tokens, Terminal::Close, inner.end)?;
    let site = site(tokens, at, end);
    Ok(Found {
        levels: inner.levels,
        end,
        tree: make::parens(alloc, site, inner.tree)?,
    })
}

/// A call of a system function.
#[tactic(auto, unfolding(crate::specs::Reading::close_system))]
pub fn close_system(
    alloc: Global,
    tokens: &[Token],
    at: usize,
    function: SystemFunction,
    inner: Found<Expr>,
) -> Result<Found<Expr>, Stop>
    requires inside { at < 2 ^ 32 }
    requires few { inner.levels + 1 < 2 ^ 32 }
    requires sized { Sized tokens.now inner.levels inner }
    ensures gives { Gives seen result (close_system tokens.now at function (tree_of inner.tree) inner.end) }
    ensures sized { IfOk result (Sized tokens.now (inner.levels + 1)) }
{
    let end = expect(tokens, Terminal::Close, inner.end)?;
    let site = site(tokens, at, end);
    Ok(Found {
        levels: inner.levels + 1,
        end,
        tree: make::system(alloc, site, function, inner.tree)?,
    })
}

/// A replication.
#[tactic(auto, unfolding(crate::specs::Reading::close_repeat))]
pub fn close_repeat(
    alloc: Global,
    tokens: &[Token],
    at: usize,
    count: Found<Expr>,
    parts: Found<Vec<Expr>>,
) -> Result<Found<Expr>, Stop>
    requires inside { at < 2 ^ 32 }
    requires few_count { count.levels + 1 < 2 ^ 32 }
    requires few_parts { parts.levels + 1 < 2 ^ 32 }
    requires sized_count { Sized tokens.now count.levels count }
    requires sized_parts { SizedParts tokens.now parts.levels parts }
    ensures gives { Gives seen result
        (close_repeat tokens.now at (tree_of count.tree) (seen_parts parts).0 parts.end) }
    ensures sized { IfOk result (Sized tokens.now (max count.levels parts.levels + 1)) }
{
    let inner = expect(tokens, Terminal::CloseBrace, parts.end)?;
    let end = expect(tokens, Terminal::CloseBrace, inner)?;
    let site = site(tokens, at, end);
    Ok(Found {
        levels: count.levels.max(parts.levels) + 1,
        end,
        tree: make::repeat(alloc, site, count.tree, parts.tree)?,
    })
}

/// A concatenation.
#[tactic(auto, unfolding(crate::specs::Reading::close_concat))]
pub fn close_concat(
    tokens: &[Token],
    at: usize,
    parts: Found<Vec<Expr>>,
) -> Result<Found<Expr>, Stop>
    requires inside { at < 2 ^ 32 }
    requires few { parts.levels + 1 < 2 ^ 32 }
    requires sized { SizedParts tokens.now parts.levels parts }
    ensures gives { Gives seen result (close_concat tokens.now at (seen_parts parts).0 parts.end) }
    ensures sized { IfOk result (Sized tokens.now (parts.levels + 1)) }
{
    let end = expect(tokens, Terminal::CloseBrace, parts.end)?;
    let site = site(tokens, at, end);
    Ok(Found {
        levels: parts.levels + 1,
        end,
        tree: make::concat(site, parts.tree),
    })
}

/// A part-select.
#[tactic(auto, unfolding(crate::specs::Reading::close_part))]
pub fn close_part(
    tokens: &[Token],
    at: usize,
    kind: PartKind,
    left: Found<Expr>,
    right: Found<Expr>,
) -> Result<Found<Select>, Stop>
    requires inside { at < 2 ^ 32 }
    requires few_left { left.levels + 1 < 2 ^ 32 }
    requires few_right { right.levels + 1 < 2 ^ 32 }
    requires sized_left { Sized tokens.now left.levels left }
    requires sized_right { Sized tokens.now right.levels right }
    ensures gives { Gives seen_select result
        (close_part tokens.now at kind (tree_of left.tree) (tree_of right.tree) right.end) }
    ensures sized { IfOk result (SizedSelect tokens.now (max left.levels right.levels + 1)) }
{
    let end = expect(tokens, Terminal::CloseBracket, right.end)?;
    let site = site(tokens, at, end);
    Ok(Found {
        levels: left.levels.max(right.levels) + 1,
        end,
        tree: make::part(site, kind, left.tree, right.tree),
    })
}

/// A bit-select.
#[tactic(auto, unfolding(crate::specs::Reading::close_bit))]
pub fn close_bit(tokens: &[Token], at: usize, index: Found<Expr>) -> Result<Found<Select>, Stop>
    requires inside { at < 2 ^ 32 }
    requires few { index.levels + 1 < 2 ^ 32 }
    requires sized { Sized tokens.now index.levels index }
    ensures gives { Gives seen_select result (close_bit tokens.now at (tree_of index.tree) index.end) }
    ensures sized { IfOk result (SizedSelect tokens.now (index.levels + 1)) }
{
    let end = expect(tokens, Terminal::CloseBracket, index.end)?;
    let site = site(tokens, at, end);
    Ok(Found {
        levels: index.levels + 1,
        end,
        tree: make::bit(site, index.tree),
    })
}
