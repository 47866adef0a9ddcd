//! Lists with commas between (IEEE 1364-2005, A.2.3 and A.8.3).
ghost use Rattle.std.specs.Prelude.{◌<◌, ◌≤◌, ◌^◌, List, ℕ, length, IfOk};
ghost use Rattle.v_lexer.specs.Lexeme.{Lexeme};
ghost use Rattle.v_syntax.specs.declared.declaration.Identifier.{Identifier};
ghost use Rattle.v_tree.specs.Faults.{Gives};
ghost use Rattle.v_syntax.specs.Tree.{Tree, tree_of};
ghost use Rattle.v_syntax.specs.PartTree.{PlainNamed, named_of};
ghost use Rattle.v_tree.specs.Reading.{Read as Reading};
ghost use Rattle.v_parts.specs.Seen.{seen_part, seen_parts, seen_identifiers, seen_values, seen_named, seen_nameds, Inside};
ghost use Rattle.v_parts.specs.Reading.{identifier_at, value_at, named_value_at, list_at};

use crate::names::{Read, identifier, name, value};
use std::alloc::Global;
use v_lexer::types::Token;
use v_syntax::{Expr, Identifier, NamedValue};
use v_tree::{Terminal, expect, site_of, stands};

/// What reads a part of a list.
pub trait PartReader {
    type Part: Drop;

    // What contracts see of a part, how they see it, and the function on lists that reading one is.
    ghost Plain: { Type 0 };

    ghost plain: { Self.Part → Plain };

    ghost part_at: { Self → List Lexeme → ℕ → Reading Plain };

    fn read(&self, alloc: Global, tokens: &[Token], at: usize) -> Read<Self::Part>
        requires short { length tokens.now < 2 ^ 32 }
        requires inside { at ≤ length tokens.now }
        ensures gives { Gives (seen_part plain) result (part_at self.now tokens.now at) }
        ensures inside { IfOk result (Inside tokens.now) };
}

/// `part,+`
#[tactic(auto, unfolding(crate::specs::Reading::list_at))]
pub fn listed<R: PartReader>(
    alloc: Global,
    tokens: &[Token],
    at: usize,
    reader: &R,
) -> Read<Vec<R::Part>>
    requires short { length tokens.now < 2 ^ 32 }
    requires inside { at ≤ length tokens.now }
    ensures gives { Gives (seen_parts R.plain) result (list_at tokens.now (R.part_at reader.now tokens.now) at) }
    ensures inside { IfOk result (Inside tokens.now) }
{
    let mut list = Vec::new(alloc);
    let (first, mut end) = reader.read(alloc, tokens, at)?;
    list.push(first)?;
    for _ in 0..tokens.len() {
        if !stands(tokens, end, Terminal::Comma) {
            return Ok((list, end));
        }
        let (part, next) = reader.read(alloc, tokens, end + 1)?;
        list.push(part)?;
        end = next;
    }
    Ok((list, end))
}

struct IdentifierReader;

impl PartReader for IdentifierReader {
    type Part = Identifier;

    ghost Plain = { Identifier };

    ghost plain = { λ x. x };

    ghost part_at = { λ _ tokens. identifier_at tokens };

    fn read(&self, alloc: Global, tokens: &[Token], at: usize) -> Read<Identifier> {
        identifier(alloc, tokens, at)
    }
}

/// `NAME,+`
pub fn identifiers(alloc: Global, tokens: &[Token], at: usize) -> Read<Vec<Identifier>>
    requires short { length tokens.now < 2 ^ 32 }
    requires inside { at ≤ length tokens.now }
    ensures gives { Gives seen_identifiers result (list_at tokens.now (identifier_at tokens.now) at) }
    ensures inside { IfOk result (Inside tokens.now) }
{
    listed(alloc, tokens, at, &IdentifierReader)
}

#[derive(Drop)]
struct ValueReader {
    nesting_left: u32,
}

impl PartReader for ValueReader {
    type Part = Expr;

    ghost Plain = { Tree };

    ghost plain = { tree_of };

    ghost part_at = { λ reader tokens. value_at tokens reader.nesting_left };

    fn read(&self, alloc: Global, tokens: &[Token], at: usize) -> Read<Expr> {
        value(alloc, tokens, at, self.nesting_left)
    }
}

/// `expr,+`
pub fn values(alloc: Global, tokens: &[Token], at: usize, nesting_left: u32) -> Read<Vec<Expr>>
    requires short { length tokens.now < 2 ^ 32 }
    requires inside { at ≤ length tokens.now }
    ensures gives { Gives seen_values result (list_at tokens.now (value_at tokens.now nesting_left) at) }
    ensures inside { IfOk result (Inside tokens.now) }
{
    listed(alloc, tokens, at, &ValueReader { nesting_left })
}

#[derive(Drop)]
struct NamedValueReader {
    nesting_left: u32,
}

impl PartReader for NamedValueReader {
    type Part = NamedValue;

    ghost Plain = { PlainNamed };

    ghost plain = { named_of };

    ghost part_at = { λ reader tokens. named_value_at tokens reader.nesting_left };

    fn read(&self, alloc: Global, tokens: &[Token], at: usize) -> Read<NamedValue> {
        named_value(alloc, tokens, at, self.nesting_left)
    }
}

/// `NAME '=' expr`
#[tactic(auto, unfolding(crate::specs::Reading::named_value_at))]
pub fn named_value(
    alloc: Global,
    tokens: &[Token],
    at: usize,
    nesting_left: u32,
) -> Read<NamedValue>
    requires short { length tokens.now < 2 ^ 32 }
    requires inside { at ≤ length tokens.now }
    ensures gives { Gives seen_named result (named_value_at tokens.now nesting_left at) }
    ensures inside { IfOk result (Inside tokens.now) }
{
    let (name, equals) = identifier(alloc, tokens, at)?;
    let next = expect(tokens, Terminal::Equals, equals)?;
    let (value, end) = value(alloc, tokens, next, nesting_left)?;
    let site = site_of(tokens, at, end);
    Ok((NamedValue { site, name, value }, end))
}

/// `(NAME '=' expr),+`
pub fn named_values(
    alloc: Global,
    tokens: &[Token],
    at: usize,
    nesting_left: u32,
) -> Read<Vec<NamedValue>>
    requires short { length tokens.now < 2 ^ 32 }
    requires inside { at ≤ length tokens.now }
    ensures gives { Gives seen_nameds result (list_at tokens.now (named_value_at tokens.now nesting_left) at) }
    ensures inside { IfOk result (Inside tokens.now) }
{
    listed(alloc, tokens, at, &NamedValueReader { nesting_left })
}
