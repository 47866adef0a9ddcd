use crate::literal::Literal;

/// A node of a circuit: a bit of an input or of a state, the AND of two earlier literals, or a bit of a place, which is
/// chosen where the place is free and else the computed literal. `moment` numbers the cycles in which a place is
/// chosen, those of all traces one after another; in a circuit of one cycle it is 0.
#[derive(Clone, Copy, Debug, PartialEq, Eq)]
pub enum Node {
    Input {
        input: u32,
        bit: u8,
    },
    State {
        state: u32,
        bit: u8,
    },
    And {
        left: Literal,
        right: Literal,
    },
    Free {
        moment: u32,
        place: u32,
        bit: u8,
        computed: Literal,
    },
}
