//! What the circuit of a net means. The law is the contract of a function that does nothing.

ghost use Rattle.std.specs.Prelude.{◌≡◌, ℕ, slice_get, Some};
ghost use Rattle.gate_base.specs.declared.literal.Literal.{Literal};
ghost use Rattle.gate_base.specs.declared.node.Node.TheVariants.{Free};
ghost use Rattle.gate_base.specs.Nodes.{AreOrdered};
ghost use Rattle.word_net.specs.Nets.{IsNet, Net};
ghost use Rattle.bit_circuit.specs.Circuits.{circuit_of, HasFree, IsCircuit};
ghost use Rattle.bit_circuit.specs.Meaning.{AreOfWidth, GivenNet, MeanNodes};

/// The literals of the outputs and of the next states mean, bit by bit, the values of the net's nodes, for all inputs,
/// states and choices; operands stand before the nodes that use them.
pub fn circuit_means()
    ghost of: { GivenNet }
    requires net { IsNet of.net }
    requires given { AreOfWidth of.source of.net.nodes }
    ensures ordered { AreOrdered (circuit_of of.net).nodes }
    ensures outputs { MeanNodes of of.net.outputs (circuit_of of.net).outputs }
    ensures next { MeanNodes of of.net.next (circuit_of of.net).next }
{}

/// The circuit of a net is one; each of its free bits is a bit of a free node of the net, below that node's width.
pub fn circuit_is_kept()
    ghost net: { Net }
    requires { IsNet net }
    ensures kept { IsCircuit (circuit_of net) }
    ensures frees { (i moment place bit : ℕ) (computed : Literal) → slice_get (circuit_of net).nodes i ≡ Some (Free moment place bit computed) → HasFree net.nodes place bit }
{}
