ghost use Rattle.std.specs.Prelude.{◌≡◌, ◌↔◌, IsTrue};
ghost use Rattle.word_net.specs.Given.{AreGiven, HasWord, IsGiven};

use crate::cycle::Cycle;
use loc_base::Bits;
use word_net::{Operation, WordNet, WordNode};

/// Whether there is a word of a number, and it has a width.
#[tactic(auto, using(crate::proofs::Givens::word_steps))]
fn has_word(words: &[Bits], number: u32, width: u8) -> bool
    ensures { IsTrue result ↔ HasWord words.now number width }
{
    match words.get(number as usize) {
        Some(word) => word.width() == width,
        None => false,
    }
}

/// Whether what a node reads is given.
fn is_given(cycle: &Cycle, node: &WordNode) -> bool
    ensures { IsTrue result ↔ IsGiven
        (record { states = cycle.now.states.now; inputs = cycle.now.inputs.now; freed = cycle.now.freed.now; chosen = cycle.now.chosen.now }) node.now.width node.now.operation }
{
    let width = node.width;
    match &node.operation {
        Operation::Input(input) => has_word(cycle.inputs, *input, width),
        Operation::State(state) => has_word(cycle.states, *state, width),
        Operation::Free { place, .. } => {
            (*place as usize) < cycle.freed.len() && has_word(cycle.chosen, *place, width)
        }
        Operation::Const(_)
        | Operation::Unary { .. }
        | Operation::Binary { .. }
        | Operation::Choose { .. }
        | Operation::Join { .. }
        | Operation::Repeat { .. }
        | Operation::Resize(_)
        | Operation::Slice { .. }
        | Operation::Pick { .. }
        | Operation::Is { .. }
        | Operation::Put { .. }
        | Operation::PutPick { .. }
        | Operation::Blend { .. } => true,
    }
}

/// Whether all that the nodes of a net read is given, in words of their widths: what `eval_into` asks.
#[tactic(auto, using(crate::proofs::Givens::net_steps))]
pub fn are_given(
    net: &WordNet,
    state: &[Bits],
    inputs: &[Bits],
    freed: &[bool],
    choice: &[Bits],
) -> bool
    ensures { IsTrue result ↔ AreGiven (record { states = state.now; inputs = inputs.now; freed = freed.now; chosen = choice.now }) net.now.nodes }
{
    let cycle = Cycle {
        states: state,
        inputs,
        freed,
        chosen: choice,
    };
    let nodes = net.nodes();
    for i in 0..nodes.len() {
        if !is_given(&cycle, &nodes[i]) {
            return false;
        }
    }
    true
}
