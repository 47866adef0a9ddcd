//! The names and the literals that tokens have.
ghost use Rattle.std.specs.Prelude.{◌≡◌, IfOk};
ghost use Rattle.v_tree.specs.Sites.{text_at};
ghost use Rattle.v_tree.specs.Marks.{mark_at};
ghost use Rattle.v_lexer.specs.declared.types.terminal.Terminal.TheVariants as marks;

use loc_base::{Bytes, Name, NoMemory};
use std::alloc::Global;
use v_lexer::types::Token;
use v_syntax::{Number, WildNumber};

#[tactic(auto, using(crate::proofs::ClassLemmas::name_bytes, crate::proofs::ClassLemmas::name_inside, crate::proofs::ClassLemmas::text_read))]
/// The name at that place.
pub fn name_of(alloc: Global, tokens: &[Token], at: usize) -> Result<Name, NoMemory>
    requires { mark_at tokens.now at ≡ marks.Name }
    ensures { IfOk result (λ n. n ≡ text_at tokens.now at) }
{
    let token = &tokens[at];
    match Name::new(alloc, token.text.as_slice())? {
        Some(name) => Ok(name),
        None => unreachable!(),
    }
}

#[tactic(auto, using(crate::proofs::ClassLemmas::number_inside, crate::proofs::ClassLemmas::text_read))]
/// The number at that place.
pub fn number_of(alloc: Global, tokens: &[Token], at: usize) -> Result<Number, NoMemory>
    requires { mark_at tokens.now at ≡ marks.Number }
    ensures { IfOk result (λ n. n ≡ text_at tokens.now at) }
{
    let token = &tokens[at];
    let text = Bytes::copy_of(alloc, token.text.as_slice())?;
    Ok(Number { text })
}

#[tactic(auto, using(crate::proofs::ClassLemmas::wild_inside, crate::proofs::ClassLemmas::text_read))]
/// The number with wildcard digits at that place.
pub fn wild_of(alloc: Global, tokens: &[Token], at: usize) -> Result<WildNumber, NoMemory>
    requires { mark_at tokens.now at ≡ marks.Wild }
    ensures { IfOk result (λ n. n ≡ text_at tokens.now at) }
{
    let token = &tokens[at];
    let text = Bytes::copy_of(alloc, token.text.as_slice())?;
    Ok(WildNumber { text })
}
