//! The statement, and the statement of an initial block, that begins at a place (IEEE 1364-2005, 9.9.1 and A.6).
ghost use Rattle.std.specs.Prelude.{◌≢◌, ℕ, ◌<◌, ◌≤◌, ◌^◌, length, IfOk, IfErr};
ghost use Rattle.v_tree.specs.declared.fault.ParseErr.TheVariants as error;
ghost use Rattle.v_syntax.specs.StatementTree.{PlainStatement, statement_of};
ghost use Rattle.v_statements.specs.Statements.{IsStatement};
ghost use Rattle.v_statements.specs.Initials.{IsInitial};
ghost use Rattle.v_parts.specs.Answers.{IsAnswer, ShowsFault};

use crate::{initials, statements};
use std::alloc::Global;
use v_lexer::types::Token;
use v_syntax::Statement;
use v_tree::{ParseErr, error_of};

/// How deep a statement may nest.
const MOST_NESTING: u32 = 256;

/// The statement that begins at a place, and the place behind it (IEEE 1364-2005, A.6). `Unexpected` comes where no production
/// has a token, `Unsupported` where a token is of a form that is left out, `Deep` where the text nests deeper than 256 or an
/// expression's tree has more than 4,096 levels; each with the span of that token, or of the end.
pub fn statement(alloc: Global, tokens: &[Token], at: usize) -> Result<(Statement, usize), ParseErr>
    requires short { length tokens.now < 2 ^ 32 }
    requires inside { at ≤ length tokens.now }
    // What is read is a statement of the tokens from there on.
    ensures found { IfOk result (λ x. IsStatement tokens.now 256 (statement_of x.0) at x.1) }
    // A statement of the tokens from there on is what is read.
    ensures only { (s : PlainStatement) (b : ℕ) → IsStatement tokens.now 256 s at b → IsAnswer result s b }
    // Where it refuses, no tokens that begin as these do have one.
    ensures refused { IfErr result (λ e. e ≢ error.NoMemory → ShowsFault (λ t. IsStatement t 256) tokens.now at e) }
{
    match statements::statement(alloc, tokens, at, MOST_NESTING) {
        Ok(found) => Ok(found),
        Err(stop) => Err(error_of(tokens, stop)),
    }
}

/// The statement of an initial block that begins at a place, and the place behind it (IEEE 1364-2005, 9.9.1): `begin` .. `end`
/// and a blocking assignment of a name are taken. The form of another statement is `Unsupported`; else errors are those of
/// `statement`.
pub fn initial_statement(
    alloc: Global,
    tokens: &[Token],
    at: usize,
) -> Result<(Statement, usize), ParseErr>
    requires short { length tokens.now < 2 ^ 32 }
    requires inside { at ≤ length tokens.now }
    // What is read is such a statement of the tokens from there on.
    ensures found { IfOk result (λ x. IsInitial tokens.now 256 (statement_of x.0) at x.1) }
    // Such a statement of the tokens from there on is what is read.
    ensures only { (s : PlainStatement) (b : ℕ) → IsInitial tokens.now 256 s at b → IsAnswer result s b }
    // Where it refuses, no tokens that begin as these do have one.
    ensures refused { IfErr result (λ e. e ≢ error.NoMemory → ShowsFault (λ t. IsInitial t 256) tokens.now at e) }
{
    match initials::initial(alloc, tokens, at, MOST_NESTING) {
        Ok(found) => Ok(found),
        Err(stop) => Err(error_of(tokens, stop)),
    }
}
