//! The tree of a text.
ghost use Rattle.std.specs.Prelude.{ℕ, List, Option, IfOk, IfErr};
ghost use Rattle.v_lexer.specs.Tokens.{HasTokens};
ghost use Rattle.v_syntax.specs.ModuleTree.{source_of};
ghost use Rattle.verilog_front_end.specs.Errors.{Refuses};
ghost use Rattle.verilog_front_end.specs.Meaning.{HasModules};
ghost use Rattle.verilog_front_end.specs.Refusals.{IsRefusal};

use crate::error::DesignErr;
use std::alloc::Global;
use v_lexer::types::Tokens;
use v_lexer::{few_tokens, tokens};
use v_parser::source;
use v_syntax::SourceTree;

/// The tokens of a text.
fn tokens_of(alloc: Global, text: &[u8]) -> Result<Tokens, DesignErr>
    ensures ok { IfOk result (HasTokens text.now) }
    ensures err { (top : List ℕ) (clock : Option (List ℕ)) → IfErr result (Refuses (IsRefusal text.now top clock)) }
{
    match tokens(alloc, text) {
        Ok(tokens) => Ok(tokens),
        Err(fault) => Err(DesignErr::Lexical(fault)),
    }
}

/// The tree of a text.
pub(crate) fn tree_of(alloc: Global, text: &[u8]) -> Result<SourceTree, DesignErr>
    ensures ok { IfOk result (λ tree. HasModules text.now (source_of tree)) }
    ensures err { (top : List ℕ) (clock : Option (List ℕ)) → IfErr result (Refuses (IsRefusal text.now top clock)) }
{
    let tokens = tokens_of(alloc, text)?;
    few_tokens();
    match source(alloc, tokens.as_slice()) {
        Ok(tree) => Ok(tree),
        Err(fault) => Err(DesignErr::Syntax(fault)),
    }
}
