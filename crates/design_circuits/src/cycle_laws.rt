//! What the values of a net's nodes are in a cycle of its design. Each law is the contract of a function that does nothing, over
//! values that no code holds.

ghost use Rattle.std.specs.Prelude.{◌≡◌, map};
ghost use Rattle.loc_base.specs.Bits.{value_of};
ghost use Rattle.design_core.specs.Cycle.{Cycle};
ghost use Rattle.design_core.specs.DrivenOnce.{IsDrivenOnce};
ghost use Rattle.design_core.specs.Reads.{IsOrder};
ghost use Rattle.design_core.specs.WellFormed.{IsWellFormed};
ghost use Rattle.word_net.specs.Given.{AreGiven, number_at, source_of};
ghost use Rattle.word_net.specs.Values.{net_values};
ghost use Rattle.synth_parts.specs.Meaning.{word_of};
ghost use Rattle.v_synth.specs.Matches.{IsNetOf};
ghost use Rattle.v_synth.specs.Net.{states_of};
ghost use Rattle.design_circuits.specs.Widths.{HasWidths};
ghost use Rattle.design_circuits.specs.Evaluated.{Evaluated, IsGivenAs};

/// Where the nodes of a design's net have their values, and what they read is what the cycle begins with, the values of the
/// outputs and of the next states are those of the cycle, for all samples, states, freed places and choices that are given as lists.
pub fn evaluated_is_cycle()
    ghost of: { Evaluated }
    requires well_formed { IsWellFormed of.cycle.design }
    requires once { IsDrivenOnce of.cycle.design }
    requires order { IsOrder of.cycle.design of.cycle.order }
    requires net { IsNetOf of.cycle.design of.cycle.order of.net }
    requires cycle { Cycle of.cycle.design of.cycle.samples of.cycle.state of.cycle.choice of.cycle.values of.cycle.next }
    requires begins { IsGivenAs of.cycle of.given }
    requires given { AreGiven of.given of.net.nodes }
    requires values { map value_of of.values ≡ net_values (source_of of.given) of.net.nodes }
    ensures outputs { map (number_at of.values) of.net.outputs ≡ map (word_of of.cycle.design.signals.items of.cycle.values) of.cycle.design.outputs.items }
    ensures next { map (number_at of.values) of.net.next ≡ map (word_of of.cycle.design.signals.items of.cycle.next) (states_of of.cycle.design) }
{}

/// In a well-formed design in which each bit gets its value once, and whose drivers stand in an order: where a word is given for
/// each sample, state and place, of its width, and the words are what the cycle begins with, all that the net reads is given; and
/// wherever words are the values of the net's nodes, those of the outputs and of the next states are those of the cycle.
pub fn design_cycle_evaluated()
    ghost of: { Evaluated }
    requires well_formed { IsWellFormed of.cycle.design }
    requires once { IsDrivenOnce of.cycle.design }
    requires order { IsOrder of.cycle.design of.cycle.order }
    requires net { IsNetOf of.cycle.design of.cycle.order of.net }
    requires cycle { Cycle of.cycle.design of.cycle.samples of.cycle.state of.cycle.choice of.cycle.values of.cycle.next }
    requires begins { IsGivenAs of.cycle of.given }
    requires widths { HasWidths of.cycle.design of.given }
    ensures given { AreGiven of.given of.net.nodes }
    ensures outputs { map value_of of.values ≡ net_values (source_of of.given) of.net.nodes
        → map (number_at of.values) of.net.outputs ≡ map (word_of of.cycle.design.signals.items of.cycle.values) of.cycle.design.outputs.items }
    ensures next { map value_of of.values ≡ net_values (source_of of.given) of.net.nodes
        → map (number_at of.values) of.net.next ≡ map (word_of of.cycle.design.signals.items of.cycle.next) (states_of of.cycle.design) }
{}
