ghost use Rattle.std.specs.Prelude.{◌≡◌, length, map};
ghost use Rattle.loc_base.specs.Bits.{width_of, value_of};
ghost use Rattle.word_net.specs.Fits.{widths_of};
ghost use Rattle.word_net.specs.Given.{AreGiven, source_of};
ghost use Rattle.word_net.specs.Values.{net_values};

use crate::cycle::Cycle;
use crate::node::value;
use loc_base::Bits;
use word_net::WordNet;

/// Gives each node of a net its value in one cycle, where the states, the inputs, the places that are freed and the values
/// chosen for them are given. Takes no memory.
#[tactic(auto, using(crate::proofs::Nodes::steps))]
pub fn eval_into(
    net: &WordNet,
    state: &[Bits],
    inputs: &[Bits],
    freed: &[bool],
    choice: &[Bits],
    out: &mut [Bits],
)
    requires given { AreGiven (record { states = state.now; inputs = inputs.now; freed = freed.now; chosen = choice.now }) net.now.nodes }
    requires room { length out.old ≡ length net.now.nodes }
    ensures values { map value_of out.new ≡ net_values (source_of (record { states = state.now; inputs = inputs.now; freed = freed.now; chosen = choice.now })) net.now.nodes }
    ensures widths { map width_of out.new ≡ widths_of net.now.nodes }
{
    let cycle = Cycle {
        states: state,
        inputs,
        freed,
        chosen: choice,
    };
    let nodes = net.nodes();
    for i in 0..nodes.len() {
        let word = value(&cycle, &out[..i], &nodes[i]);
        out[i] = word;
    }
}
