//! Laws of the definition of a design's net. Each is the contract of a function that does nothing, over values that no code holds.

ghost use Rattle.design_core.specs.Cycle.{Cycle};
ghost use Rattle.design_core.specs.DrivenOnce.{IsDrivenOnce};
ghost use Rattle.design_core.specs.Reads.{IsOrder};
ghost use Rattle.design_core.specs.WellFormed.{IsWellFormed};
ghost use Rattle.word_net.specs.Fits.{AllFit};
ghost use Rattle.v_synth.specs.Net.{net_of};
ghost use Rattle.v_synth.specs.Matches.{Matches, OneNet};
ghost use Rattle.std.specs.Prelude.{[]};

/// In a well-formed design in which each bit gets its value once, and whose drivers stand in an order, the outputs and the
/// next states of the net are those of the cycle, for all samples, states, freed places and choices.
pub fn net_matches()
    ghost of: { OneNet }
    requires well_formed { IsWellFormed of.design }
    requires once { IsDrivenOnce of.design }
    requires order { IsOrder of.design of.order }
    requires cycle { Cycle of.design of.samples of.state of.choice of.values of.next }
    ensures { Matches of }
{}

/// In such a design the nodes of the net read earlier ones, whose widths fit.
pub fn net_fits()
    ghost of: { OneNet }
    requires well_formed { IsWellFormed of.design }
    requires once { IsDrivenOnce of.design }
    requires order { IsOrder of.design of.order }
    ensures { AllFit [] (net_of of.design of.order).nodes }
{}
