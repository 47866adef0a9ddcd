ghost use Rattle.std.specs.Prelude.{◌≡◌};
ghost use Rattle.bit_circuit.specs.Circuits.{IsCircuit};

use gate_base::{Literal, Node};
use loc_base::{Bits, Rows};
use std::marker::Model;

/// One cycle of a design as a circuit. Contracts see it as a `BitNet`: its nodes, of which each reads earlier ones; the
/// literals of each output and of each next state, from bit 0; and the states before the first cycle.
pub struct Circuit {
    nodes: Vec<Node>,
    outputs: Rows<Literal>,
    next: Rows<Literal>,
    start: Vec<Bits>,
}

impl Model for Circuit {
    ghost use Rattle.bit_circuit.specs.Circuits.{BitNet, IsCircuit};
    ghost use Rattle.bit_circuit.specs.Fields.{net_of};

    ghost Value = { BitNet };

    ghost view = { net_of };

    ghost invariant = { λ c. IsCircuit (net_of c) };
}

impl Drop for Circuit {
    fn drop(self) {
        let Circuit {
            nodes: _,
            outputs: _,
            next: _,
            start: _,
        } = self;
    }
}

impl Circuit {
    /// The circuit of these nodes, outputs, next states and start values.
    pub(crate) fn new(
        nodes: Vec<Node>,
        outputs: Rows<Literal>,
        next: Rows<Literal>,
        start: Vec<Bits>,
    ) -> Circuit
        requires { IsCircuit (record { nodes = nodes.items; outputs = outputs; next = next; start = start.items }) }
        ensures { result ≡ record { nodes = nodes.items; outputs = outputs; next = next; start = start.items } }
    {
        Circuit {
            nodes,
            outputs,
            next,
            start,
        }
    }

    /// The nodes.
    pub fn nodes(&self) -> &[Node]
        ensures value { result.now ≡ self.now.nodes }
        ensures circuit { IsCircuit self.now }
    {
        self.nodes.as_slice()
    }

    /// The literals of each output, in port order, from bit 0.
    pub fn outputs(&self) -> &Rows<Literal>
        ensures { result.now ≡ self.now.outputs }
    {
        &self.outputs
    }

    /// The literals of each state in the next cycle, from bit 0.
    pub fn next(&self) -> &Rows<Literal>
        ensures { result.now ≡ self.now.next }
    {
        &self.next
    }

    /// The states before the first cycle.
    pub fn start(&self) -> &[Bits]
        ensures { result.now ≡ self.now.start }
    {
        self.start.as_slice()
    }
}
