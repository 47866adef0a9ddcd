ghost use Rattle.std.specs.Prelude.{◌≡◌, ◌≢◌, ℕ, ◌+◌, ◌<◌, ◌≤◌, ◌^◌, length, IfOk, IfErr};
ghost use Rattle.v_tree.specs.Marks.{mark_at};
ghost use Rattle.v_lexer.specs.declared.types.terminal.Terminal.TheVariants as marks;
ghost use Rattle.v_tree.specs.declared.fault.ParseErr.TheVariants as error;
ghost use Rattle.v_tree.specs.Operators.{binary_of};
ghost use Rattle.v_syntax.specs.Tree.{Tree, tree_of};
ghost use Rattle.v_tree.specs.Expressions.{IsWhole};
ghost use Rattle.v_tree.specs.Faults.{Gives};
ghost use Rattle.v_tree.specs.Found.{seen, Sized};
ghost use Rattle.v_tree.specs.Reading.{wild_at, whole_expression};
ghost use Rattle.v_tree.specs.Answers.{IsAnswer, ShowsFault};

use crate::fault::{Fault, ParseErr, Stop, error_of};
use crate::found::Found;
use crate::input::{site, stands};
use crate::make;
use crate::mark::mark_at;
use crate::operator_of::binary_of;
use crate::read::whole;
use crate::text::wild_of;
use std::alloc::Global;
use v_lexer::types::{Terminal, Token};
use v_syntax::Expr;

/// How deep a text may nest.
const MOST_NESTING: u32 = 256;

/// How many levels the tree of an expression may have.
const MOST_LEVELS: u32 = 4096;

fn wild(alloc: Global, tokens: &[Token], at: usize) -> Result<Found<Expr>, Stop>
    requires short { length tokens.now < 2 ^ 32 }
    requires inside { at < length tokens.now }
    requires wild { mark_at tokens.now at ≡ marks.Wild }
    ensures gives { Gives seen result (wild_at tokens.now at (binary_of (mark_at tokens.now (at + 1)))) }
    ensures sized { IfOk result (Sized tokens.now 0) }
{
    if binary_of(mark_at(tokens, at + 1)).is_some() {
        return Err(Stop::Fault(Fault::Unsupported(at)));
    }
    if stands(tokens, at + 1, Terminal::Question) {
        return Err(Stop::Fault(Fault::Unsupported(at)));
    }
    let number = wild_of(alloc, tokens, at)?;
    let site = site(tokens, at, at + 1);
    Ok(Found {
        tree: make::wild(site, number),
        levels: 0,
        end: at + 1,
    })
}

/// An expression of its own, where `nesting_left` levels of nesting are left to it, or a number with wildcard digits.
#[tactic(auto, using(crate::proofs::PlaceLemmas::is_mark), unfolding(crate::specs::Reading::whole_expression))]
pub fn read_expression(
    alloc: Global,
    tokens: &[Token],
    at: usize,
    nesting_left: u32,
) -> Result<Found<Expr>, Stop>
    requires short { length tokens.now < 2 ^ 32 }
    requires inside { at ≤ length tokens.now }
    ensures gives { Gives seen result (whole_expression tokens.now nesting_left at) }
    ensures sized { IfOk result (Sized tokens.now 4096) }
{
    if stands(tokens, at, Terminal::Wild) {
        return wild(alloc, tokens, at);
    }
    whole(alloc, tokens, at, nesting_left, MOST_LEVELS)
}

/// The expression that begins at a place and goes on as far as it can, and the place behind it (IEEE 1364-2005, clause 5). A
/// number with wildcard digits may be the whole of it. `Unexpected` comes where no production has a token, `Unsupported`
/// where a token is of a form that is left out, `Deep` where a text nests deeper than 256 or an expression's tree has more
/// than 4,096 levels; each with the span of that token, or of the end.
pub fn expr(alloc: Global, tokens: &[Token], at: usize) -> Result<(Expr, usize), ParseErr>
    requires short { length tokens.now < 2 ^ 32 }
    requires inside { at ≤ length tokens.now }
    // What is read is an expression of the tokens from there on.
    ensures found { IfOk result (λ x. IsWhole tokens.now 256 (tree_of x.0) at x.1) }
    // An expression of the tokens from there on is what is read.
    ensures only { (e : Tree) (b : ℕ) → IsWhole tokens.now 256 e at b → IsAnswer result e b }
    // Where it refuses, no tokens that begin as these do have one.
    ensures refused { IfErr result (λ e. e ≢ error.NoMemory → ShowsFault tokens.now 256 at e) }
{
    match read_expression(alloc, tokens, at, MOST_NESTING) {
        Ok(found) => Ok((found.tree, found.end)),
        Err(stop) => Err(error_of(tokens, stop)),
    }
}
