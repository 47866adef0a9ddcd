//! The tree of a whole text (IEEE 1364-2005, A.1).
ghost use Rattle.std.specs.Prelude.{◌≢◌, ◌<◌, ◌^◌, List, length, IfOk, IfErr};
ghost use Rattle.v_tree.specs.declared.fault.ParseErr.TheVariants as error;
ghost use Rattle.v_syntax.specs.ModuleTree.{PlainModule, source_of};
ghost use Rattle.v_parser.specs.Modules.{IsSource, IsSourceAnswer, ShowsNoSource};

use crate::modules::modules;
use std::alloc::Global;
use v_lexer::types::Token;
use v_syntax::SourceTree;
use v_tree::{ParseErr, error_of};

/// The tree of all the tokens (IEEE 1364-2005, A.1): the modules, one behind the other, and none where there is no token.
/// `Unexpected` comes where no production has a token, `Unsupported` where a token is of a form that is left out, `Deep` where a
/// part of a module nests deeper than 256 or an expression's tree has more than 4,096 levels; each with the span of that token,
/// or of the end.
pub fn source(alloc: Global, tokens: &[Token]) -> Result<SourceTree, ParseErr>
    requires short { length tokens.now < 2 ^ 32 }
    // What is read is a source of all the tokens.
    ensures found { IfOk result (λ tree. IsSource tokens.now (source_of tree)) }
    // A source of all the tokens is what is read.
    ensures only { (s : List PlainModule) → IsSource tokens.now s → IsSourceAnswer result s }
    // Where it refuses, no tokens that begin as these do have one.
    ensures refused { IfErr result (λ e. e ≢ error.NoMemory → ShowsNoSource tokens.now e) }
{
    match modules(alloc, tokens) {
        Ok((modules, _)) => Ok(SourceTree { modules }),
        Err(stop) => Err(error_of(tokens, stop)),
    }
}
