//! Laws of the definitions. Each is the contract of a function that does nothing, over values that no code holds.
ghost use Rattle.std.specs.Prelude.{◌≡◌, true, option_map, List};
ghost use Rattle.design_core.specs.Reads.{IsOrder};
ghost use Rattle.design_core.specs.WellFormed.{IsWellFormed};
ghost use Rattle.cycle_sim.specs.Simulated.{IsSimulable};
ghost use Rattle.changes.specs.Changes.{change_of};
ghost use Rattle.changes.specs.Reached.{reached};
ghost use Rattle.change_lines.specs.Lines.{AreChangeLines, ChangeLine, change_at};
ghost use Rattle.change_lines.specs.Laws.{ByOrder, OfCycle, OfSet};

/// A place of a set has a line in a cycle exactly where its value is a change, and the line says what it takes.
pub fn line_is_change()
    ghost of: { OfCycle }
    requires well_formed { IsWellFormed of.site.design }
    requires order { IsOrder of.site.design of.order }
    ensures { option_map (λ (line : ChangeLine). line.takes) (change_at of.site of.choice of.values of.place)
        ≡ change_of true (of.choice.chosen of.place) (reached of.site.design of.choice of.values of.place) }
{}

/// The traces of a design that can be simulated have lines.
pub fn some_lines()
    ghost of: { ByOrder }
    requires simulable { IsSimulable of.told.design of.order }
    ensures { (lines : List ChangeLine) × AreChangeLines of.told of.number of.first of.traces lines }
{}

/// And but one list of them.
pub fn one_list()
    ghost of: { OfSet }
    requires simulable { IsSimulable of.by.told.design of.by.order }
    requires one { AreChangeLines of.by.told of.by.number of.by.first of.by.traces of.one }
    requires other { AreChangeLines of.by.told of.by.number of.by.first of.by.traces of.other }
    ensures { of.one ≡ of.other }
{}
