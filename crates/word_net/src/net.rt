ghost use Rattle.std.specs.Prelude.{◌≡◌};
ghost use Rattle.word_net.specs.Nets.{IsNet};

use crate::node::WordNode;
use loc_base::Bits;
use std::marker::Model;

/// One cycle of a design as a net of words. Contracts see it as a `Net`: its nodes, of which each reads earlier ones; the
/// numbers of the nodes that are the outputs, and of those that are the next states; and the states before the first
/// cycle.
pub struct WordNet {
    nodes: Vec<WordNode>,
    outputs: Vec<u32>,
    next: Vec<u32>,
    start: Vec<Bits>,
}

impl Model for WordNet {
    ghost use Rattle.word_net.specs.Nets.{Net, IsNet};
    ghost use Rattle.word_net.specs.Fields.{net_of};

    ghost Value = { Net };

    ghost view = { net_of };

    ghost invariant = { λ n. IsNet (net_of n) };
}

impl Drop for WordNet {
    fn drop(self) {
        let WordNet {
            nodes: _,
            outputs: _,
            next: _,
            start: _,
        } = self;
    }
}

impl WordNet {
    /// The net of these nodes, outputs, next states and start values.
    pub fn new(nodes: Vec<WordNode>, outputs: Vec<u32>, next: Vec<u32>, start: Vec<Bits>) -> WordNet
        requires { IsNet (record { nodes = nodes.items; outputs = outputs.items; next = next.items; start = start.items }) }
        ensures { result ≡ record { nodes = nodes.items; outputs = outputs.items; next = next.items; start = start.items } }
    {
        WordNet {
            nodes,
            outputs,
            next,
            start,
        }
    }

    /// The nodes.
    pub fn nodes(&self) -> &[WordNode]
        ensures value { result.now ≡ self.now.nodes }
        ensures net { IsNet self.now }
    {
        self.nodes.as_slice()
    }

    /// The numbers of the outputs' nodes, in port order.
    pub fn outputs(&self) -> &[u32]
        ensures { result.now ≡ self.now.outputs }
    {
        self.outputs.as_slice()
    }

    /// The numbers of the nodes of the next states, one for each state.
    pub fn next(&self) -> &[u32]
        ensures { result.now ≡ self.now.next }
    {
        self.next.as_slice()
    }

    /// The states before the first cycle.
    pub fn start(&self) -> &[Bits]
        ensures { result.now ≡ self.now.start }
    {
        self.start.as_slice()
    }
}
