//! Laws of the definitions. Each is the contract of a function that does nothing, over values that no code holds.
ghost use Rattle.std.specs.Prelude.{List};
ghost use Rattle.cycle_sim.specs.Simulated.{IsSimulable};
ghost use Rattle.sim_lines.specs.Lines.{AreLines, Line as SomeLine};
ghost use Rattle.sim_lines.specs.Laws.{Given};

/// The traces of a design that can be simulated have lines.
pub fn some_lines()
    ghost of: { Given }
    requires simulable { IsSimulable of.design of.order }
    ensures { (lines : List SomeLine) × AreLines of.design of.number of.traces lines }
{}
