//! What a cycle is given.

ghost use Rattle.std.specs.Prelude.{◌≡◌};
ghost use Rattle.unroller.specs.Cycles.{held, sampled, translated};

use gate_base::Literal;
use loc_base::{Bits, Items, Rows};
use plain_values::bit_of;

/// The number of a cycle among all cycles, the words of its inputs, the literals of its states, and for each place whether it
/// is in a group.
pub(crate) struct Frame {
    pub moment: u32,
    pub samples: Items<Bits>,
    pub states: Rows<Literal>,
    pub grouped: Items<bool>,
}

impl Drop for Frame {
    fn drop(self) {
        let Frame {
            moment: _,
            samples: _,
            states: _,
            grouped: _,
        } = self;
    }
}

/// A literal of the circuit, where its nodes are these literals.
#[tactic(auto, using(crate::proofs::Entries::reads))]
pub(crate) fn translated(now: &[Literal], literal: Literal) -> Literal
    ensures { result ≡ translated now.now literal }
{
    match literal {
        Literal::Known(value) => Literal::Known(value),
        Literal::Of { node, negated } => {
            let at = match now.get(node as usize) {
                Some(literal) => *literal,
                None => Literal::Known(false),
            };
            if negated { at.opposite() } else { at }
        }
    }
}

/// A bit of a list of words, false where there is none.
pub(crate) fn sampled(words: &[Bits], number: u32, bit: u8) -> bool
    ensures { result ≡ sampled words.now number bit }
{
    match words.get(number as usize) {
        Some(word) => bit_of(*word, u32::from(bit)),
        None => false,
    }
}

/// The literal of a bit of a state, false where there is none.
#[tactic(auto, using(crate::proofs::Entries::reads))]
pub(crate) fn held(states: &Rows<Literal>, state: u32, bit: u8) -> Literal
    ensures { result ≡ held states.now state bit }
{
    let state = state as usize;
    if state < states.len() {
        match states.row(state).get(usize::from(bit)) {
            Some(literal) => *literal,
            None => Literal::Known(false),
        }
    } else {
        Literal::Known(false)
    }
}
