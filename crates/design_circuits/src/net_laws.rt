//! Laws of what a design's net reads. Each is the contract of a function that does nothing, over values that no code holds.

ghost use Rattle.design_core.specs.DrivenOnce.{IsDrivenOnce};
ghost use Rattle.design_core.specs.Reads.{IsOrder};
ghost use Rattle.design_core.specs.WellFormed.{IsWellFormed};
ghost use Rattle.v_synth.specs.Matches.{OneNet};
ghost use Rattle.v_synth.specs.Net.{net_of};
ghost use Rattle.word_net.specs.Given.{AreGiven};
ghost use Rattle.design_circuits.specs.Reads.{AllReadDesign, HasEachPlace};
ghost use Rattle.design_circuits.specs.Widths.{GivenNet, HasWidths};

/// In a well-formed design in which each bit gets its value once, and whose drivers stand in an order, each node of the net
/// that reads an input, a state or a place reads one that the design has, of the node's width; and each place has its node.
pub fn net_reads_design()
    ghost of: { OneNet }
    requires well_formed { IsWellFormed of.design }
    requires once { IsDrivenOnce of.design }
    requires order { IsOrder of.design of.order }
    ensures reads { AllReadDesign of.design (net_of of.design of.order).nodes }
    ensures places { HasEachPlace of.design (net_of of.design of.order).nodes }
{}

/// In such a design, words of the widths of its inputs, states and places are all that the net reads.
pub fn net_is_given()
    ghost net: { GivenNet }
    requires well_formed { IsWellFormed net.of.design }
    requires once { IsDrivenOnce net.of.design }
    requires order { IsOrder net.of.design net.of.order }
    requires widths { HasWidths net.of.design net.given }
    ensures { AreGiven net.given (net_of net.of.design net.of.order).nodes }
{}
