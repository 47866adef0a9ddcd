//! A trace that is run again, with values for places.
ghost use Rattle.std.specs.Prelude.{◌≡◌, ◌<◌, IfOk};
ghost use Rattle.design_core.specs.Explained.{is_one_of};
ghost use Rattle.design_core.specs.Run.{choice_at, samples_at};
ghost use Rattle.cycle_sim.specs.Replaying.{choices_from};
ghost use Rattle.cycle_sim.specs.Simulated.{Steps};
ghost use Rattle.cycle_sim.specs.Simulator.{IsSim, held_by};
ghost use Rattle.value_runs.specs.Reruns.{AreEntries, ChoosesAt, IsRerun};

use crate::entries::{Entries, choose};
use cycle_sim::Sim;
use design_core::{Design, Trace, Values};
use loc_base::NoMemory;
use plain_values::row;
use std::alloc::Global;

/// A trace of a design, and values for places of it. The values of the trace's cycles stand in the rows from `first` on.
#[derive(Clone, Copy)]
pub struct Rerun<'a> {
    pub design: &'a Design,
    pub trace: &'a Trace,
    pub values: &'a Values,
    pub first: usize,
}

impl Rerun<'_> {
    /// Entries that free the places of the values. They take memory once for all cycles.
    pub fn entries(&self, alloc: Global) -> Result<Entries, NoMemory>
        requires { IsRerun self.now }
        ensures { IfOk result (AreEntries self.now) }
    {
        Entries::new(alloc, self.design.places.len(), &self.values.places)
    }

    /// Makes the cycle of a number. The entries are then those of this cycle. Takes no memory.
    pub fn step(&self, sim: &mut Sim, entries: &mut Entries, t: u32)
        requires sim { IsSim sim.old }
        requires rerun { IsRerun self.now }
        requires design { (held_by sim.old).design ≡ self.now.design.now }
        requires entries { AreEntries self.now entries.old }
        requires time { t < self.now.trace.now.cycles }
        ensures sim { IsSim sim.new }
        ensures entries { AreEntries self.now entries.new }
        ensures chooses { ChoosesAt self.now t entries.new }
        ensures step { Steps (samples_at self.now.design.now self.now.trace.now t)
            (choice_at (is_one_of self.now.values.now.places.items) (choices_from self.now.values.now self.now.first) t)
            (held_by sim.old) (held_by sim.new) }
    {
        let places = &self.values.places;
        let chosen = row(&self.values.rows, places.len(), self.first + t as usize);
        choose(places, chosen, &mut entries.choice);
        let samples = row(&self.trace.inputs, self.design.inputs.len(), t as usize);
        sim.step(samples, &entries.freed, &entries.choice);
    }
}
