ghost use Rattle.std.specs.Prelude.{◌≡◌};
ghost use Rattle.bit_words.specs.Bits.{turned};

use gate_base::{Literal, Maker};
use loc_base::Items;

/// The arena, and the word at hand: the bits that have been made of it, from bit 0 up.
#[derive(Drop)]
pub struct WordMaker {
    pub maker: Maker,
    pub bits: Items<Literal>,
}

/// A literal as it stands, or its opposite.
pub(crate) fn turned(negated: bool, literal: Literal) -> Literal
    ensures { result ≡ turned negated literal }
{
    if negated { literal.opposite() } else { literal }
}
