//! A trace that is run again, with values for places.
ghost use Rattle.std.specs.Prelude.{◌≡◌, ◌<◌, ◌+◌, ◌*◌, IfOk, List, length, map, slice_range};
ghost use Rattle.design_core.specs.Explained.{is_one_of};
ghost use Rattle.design_core.specs.Run.{choice_at, samples_at};
ghost use Rattle.design_core.specs.Valuation.{Valuation};
ghost use Rattle.cycle_sim.specs.Replaying.{choices_from};
ghost use Rattle.cycle_sim.specs.Simulated.{Steps};
ghost use Rattle.cycle_sim.specs.Simulator.{IsSim, held_by};
ghost use Rattle.vcd_waves.specs.Lines.{expected};
ghost use Rattle.set_waves.specs.Making.{AreEntries, IsRunOf, IsSameSim, IsRerun, Simulates, given_in};

use crate::entries::{Entries, choose};
use crate::outputs::push_outputs;
use cycle_sim::Sim;
use design_core::{Checked, Design, Trace, Values};
use loc_base::{Bits, NoMemory};
use plain_values::row;
use std::alloc::Global;

/// A trace of a design, and values for places of it. The values of the trace's cycles stand in the rows from `first` on.
#[derive(Clone, Copy)]
pub(crate) struct Rerun<'a> {
    pub(crate) design: &'a Design,
    pub(crate) trace: &'a Trace,
    pub(crate) values: &'a Values,
    pub(crate) first: usize,
}

impl Rerun<'_> {
    /// Makes the cycle of a number.
    fn step(&self, sim: &mut Sim, entries: &mut Entries, t: u32)
        requires sim { IsSim sim.old }
        requires rerun { IsRerun self.now }
        requires design { (held_by sim.old).design ≡ self.now.design.now }
        requires entries { AreEntries self.now entries.old }
        requires time { t < self.now.trace.now.cycles }
        ensures sim { IsSim sim.new }
        ensures entries { AreEntries self.now entries.new }
        ensures step { Steps (samples_at self.now.design.now self.now.trace.now t)
            (choice_at (is_one_of self.now.values.now.places.items) (choices_from self.now.values.now self.now.first) t)
            (held_by sim.old) (held_by sim.new) }
    {
        let places = &self.values.places;
        let chosen = row(&self.values.rows, places.len(), self.first + t as usize);
        choose(places, chosen, &mut entries.choice);
        let samples = row(&self.trace.inputs, self.design.inputs.len(), t as usize);
        sim.step(samples, &entries.freed, &entries.choice);
    }

    /// The outputs in all cycles, every bit of them known, by entries that free the places.
    fn outputs_by(
        &self,
        alloc: Global,
        sim: &mut Sim,
        entries: &mut Entries,
    ) -> Result<Vec<Checked>, NoMemory>
        requires sim { IsSim sim.old }
        requires rerun { IsRerun self.now }
        requires simulates { Simulates self.now (held_by sim.old) }
        requires entries { AreEntries self.now entries.old }
        ensures sim { IsSim sim.new }
        ensures same { IsSameSim (held_by sim.old) (held_by sim.new) }
        ensures count { IfOk result (λ outputs. length outputs.items
            ≡ self.now.trace.now.cycles * length self.now.design.now.outputs.items) }
        ensures outputs { IfOk result (λ outputs. (run : List Valuation) → IsRunOf self.now run
            → map expected outputs.items ≡ given_in self.now.design.now run) }
    {
        sim.reset();
        let mut outputs = Vec::new(alloc);
        for t in 0..self.trace.cycles {
            self.step(sim, entries, t);
            push_outputs(&mut outputs, self.design, sim)?;
        }
        Ok(outputs)
    }

    /// The outputs in all cycles, every bit of them known.
    pub(crate) fn outputs(&self, alloc: Global, sim: &mut Sim) -> Result<Vec<Checked>, NoMemory>
        requires sim { IsSim sim.old }
        requires rerun { IsRerun self.now }
        requires simulates { Simulates self.now (held_by sim.old) }
        ensures sim { IsSim sim.new }
        ensures same { IsSameSim (held_by sim.old) (held_by sim.new) }
        ensures count { IfOk result (λ outputs. length outputs.items
            ≡ self.now.trace.now.cycles * length self.now.design.now.outputs.items) }
        ensures outputs { IfOk result (λ outputs. (run : List Valuation) → IsRunOf self.now run
            → map expected outputs.items ≡ given_in self.now.design.now run) }
    {
        let mut entries = Entries::new(alloc, self.design.places.len(), &self.values.places)?;
        self.outputs_by(alloc, sim, &mut entries)
    }

    /// The words that are chosen in the trace's cycles.
    pub(crate) fn chosen(&self) -> &[Bits]
        requires { IsRerun self.now }
        ensures count { length result.now ≡ self.now.trace.now.cycles * length self.now.values.now.places.items }
        ensures rows { result.now ≡ slice_range self.now.values.now.rows.items
            (self.now.first * length self.now.values.now.places.items)
            ((self.now.first + self.now.trace.now.cycles) * length self.now.values.now.places.items) }
    {
        let width = self.values.places.len();
        let end = self.first + self.trace.cycles as usize;
        &self.values.rows[self.first * width..end * width]
    }
}
