//! What the definitions of `specs/Nodes` mean. Each law is the contract of a function that does nothing.

ghost use Rattle.std.specs.Prelude.{◌&&◌, ◌||◌, false, if◌then◌else◌, not, true};
ghost use Rattle.gate_base.specs.declared.literal.Literal.TheVariants.{Known};
ghost use Rattle.gate_base.specs.Literals.{opposite};
ghost use Rattle.gate_base.specs.Nodes.{and_all_made, and_made, free_made, input_made, mux_made, or_all_made, or_made, state_made, xor_all_made, xor_made};
ghost use Rattle.gate_base.specs.Meaning.{Gives, Grown, Means, MeansAll, all_of, differ, odd_of, some_of};
ghost use Rattle.gate_base.specs.Laws.{Bit, Chain, Later, Operands};

/// Operands that mean bits give a literal that means the operator's bit.
pub fn operators_mean()
    ghost of: { Operands }
    requires condition { Means of.source of.nodes of.condition of.c }
    requires left { Means of.source of.nodes of.left of.a }
    requires right { Means of.source of.nodes of.right of.b }
    ensures opposite { Means of.source of.nodes (opposite of.left) (not of.a) }
    ensures and { Gives of.source of.nodes (and_made of.nodes of.left of.right) (of.a && of.b) }
    ensures or { Gives of.source of.nodes (or_made of.nodes of.left of.right) (of.a || of.b) }
    ensures xor { Gives of.source of.nodes (xor_made of.nodes of.left of.right) (differ of.a of.b) }
    ensures mux { Gives of.source of.nodes (mux_made of.nodes of.condition of.left of.right) (if of.c then of.a else of.b) }
{}

/// A chain means that all, some, or an odd number of its bits are true.
#[tactic(auto, using(crate::proofs::Meaning::chains_mean))]
pub fn chains_mean()
    ghost of: { Chain }
    requires { MeansAll of.source of.nodes of.literals of.bits }
    ensures and { Gives of.source of.nodes (and_all_made of.nodes (Known true) of.literals) (all_of of.bits) }
    ensures or { Gives of.source of.nodes (or_all_made of.nodes (Known false) of.literals) (some_of of.bits) }
    ensures xor { Gives of.source of.nodes (xor_all_made of.nodes (Known false) of.literals) (odd_of of.bits) }
{}

/// A bit of an input or a state means what the source gives; a bit of a place means the chosen bit where the place is
/// free, else the computed one.
pub fn bits_mean()
    ghost of: { Bit }
    requires { Means of.source of.nodes of.computed of.b }
    ensures input { Gives of.source of.nodes (input_made of.nodes of.number of.bit) (of.source.inputs of.number of.bit) }
    ensures state { Gives of.source of.nodes (state_made of.nodes of.number of.bit) (of.source.states of.number of.bit) }
    ensures free { Gives of.source of.nodes (free_made of.nodes of.moment of.number of.bit of.computed) (if of.source.frees of.number then of.source.chosen of.moment of.number of.bit else of.b) }
{}

/// Literals keep their meaning as nodes are added.
pub fn meaning_stays()
    ghost of: { Later }
    requires grown { Grown of.before of.after }
    requires one { Means of.source of.before of.literal of.b }
    requires all { MeansAll of.source of.before of.literals of.bits }
    ensures one { Means of.source of.after of.literal of.b }
    ensures all { MeansAll of.source of.after of.literals of.bits }
{}
