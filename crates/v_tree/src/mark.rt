//! What the tokens are to the grammar.
ghost use Rattle.std.specs.Prelude.{◌≡◌};
ghost use Rattle.v_tree.specs.Marks.{mark_at, same};

use v_lexer::types::{Terminal, Token};

/// What the token of that number is to the grammar, and `Nothing` where there is none.
#[tactic(auto, unfolding(crate::specs::Marks::mark_at))]
pub fn mark_at(tokens: &[Token], at: usize) -> Terminal
    ensures { result ≡ mark_at tokens.now at }
{
    match tokens.get(at) {
        Some(token) => token.terminal,
        None => Terminal::Nothing,
    }
}

/// Whether the two are one terminal.
pub fn same(one: Terminal, other: Terminal) -> bool
    ensures { result ≡ same one other }
{
    one == other
}
