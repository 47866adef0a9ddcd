//! The lines of a trace.
ghost use Rattle.std.specs.Prelude.{◌≡◌, ◌<◌, ◌^◌, ◌++◌, IfOk, List, OnOk, length, map};
ghost use Rattle.design_core.specs.Run.{choice_at, samples_at};
ghost use Rattle.design_core.specs.Valuation.{Valuation};
ghost use Rattle.design_core.specs.Words.{AreWordsOf, valuation_of};
ghost use Rattle.cycle_sim.specs.Simulated.{Steps};
ghost use Rattle.cycle_sim.specs.Simulator.{IsSim, held_by};
ghost use Rattle.value_runs.specs.Reruns.{AreEntries, IsRunOf};
ghost use Rattle.change_lines.specs.Lines.{change_text, chosen_in, cycle_changes, run_changes, site_of};
ghost use Rattle.change_lines.specs.Telling.{IsSameSim, IsScene, Simulates, told_in};

use crate::change::Site;
use crate::cycle::push_changes;
use changes::Moment;
use cycle_sim::Sim;
use design_core::Design;
use loc_base::{Bits, Bytes, NoMemory};
use std::alloc::Global;
use suspect_map::Group;
use value_runs::{Entries, Rerun};

/// A trace of a number, from 1, that is run again with the values of a set.
#[derive(Clone, Copy)]
pub(crate) struct Scene<'a> {
    pub(crate) rerun: Rerun<'a>,
    pub(crate) groups: &'a [Group],
    pub(crate) members: &'a [u32],
    pub(crate) number: u32,
}

/// The words of the signals in the cycle that was made.
fn words_in(alloc: Global, design: &Design, sim: &Sim) -> Result<Vec<Bits>, NoMemory>
    requires sim { IsSim sim.now }
    requires design { (held_by sim.now).design ≡ design.now }
    requires few { length design.now.signals.items < 2 ^ 32 }
    ensures words { IfOk result (λ words. AreWordsOf design.now.signals.items words.items) }
    ensures values { IfOk result (λ words. valuation_of words.items ≡ (held_by sim.now).values) }
{
    let mut words = Vec::new(alloc);
    for signal in 0..design.signals.len() {
        words.push(sim.value(signal as u32))?;
    }
    Ok(words)
}

impl Scene<'_> {
    /// Makes the cycle of a number, and appends its lines.
    fn push_cycle(
        &self,
        alloc: Global,
        lines: &mut Vec<Bytes>,
        sim: &mut Sim,
        entries: &mut Entries,
        t: u32,
    ) -> Result<(), NoMemory>
        requires sim { IsSim sim.old }
        requires scene { IsScene self.now }
        requires simulates { Simulates self.now (held_by sim.old) }
        requires entries { AreEntries self.now.rerun entries.old }
        requires time { t < self.now.rerun.trace.now.cycles }
        ensures sim { IsSim sim.new }
        ensures entries { AreEntries self.now.rerun entries.new }
        ensures step { Steps (samples_at self.now.rerun.design.now self.now.rerun.trace.now t)
            (chosen_in (told_in self.now) self.now.rerun.first t) (held_by sim.old) (held_by sim.new) }
        ensures lines { OnOk result (lines.new.items ≡ lines.old.items ++ map change_text
            (cycle_changes (site_of (told_in self.now) self.now.number t) (chosen_in (told_in self.now) self.now.rerun.first t)
            (held_by sim.new).values self.now.rerun.values.now.places.items)) }
    {
        self.rerun.step(sim, entries, t);
        let words = words_in(alloc, self.rerun.design, sim)?;
        let site = Site {
            moment: Moment {
                design: self.rerun.design,
                words: &words,
                freed: &entries.freed,
                chosen: &entries.choice,
            },
            groups: self.groups,
            members: self.members,
            trace: self.number,
            cycle: t,
        };
        push_changes(alloc, lines, &site, &self.rerun.values.places)
    }

    /// Runs the trace, and appends the lines of its cycles.
    pub(crate) fn push_lines(
        &self,
        alloc: Global,
        lines: &mut Vec<Bytes>,
        sim: &mut Sim,
    ) -> Result<(), NoMemory>
        requires sim { IsSim sim.old }
        requires scene { IsScene self.now }
        requires simulates { Simulates self.now (held_by sim.old) }
        ensures sim { IsSim sim.new }
        ensures same { IsSameSim (held_by sim.old) (held_by sim.new) }
        ensures lines { OnOk result ((run : List Valuation) → IsRunOf self.now.rerun run → lines.new.items ≡ lines.old.items
            ++ map change_text (run_changes (told_in self.now) self.now.number self.now.rerun.first 0 run)) }
    {
        sim.reset();
        let mut entries = self.rerun.entries(alloc)?;
        for t in 0..self.rerun.trace.cycles {
            self.push_cycle(alloc, lines, sim, &mut entries, t)?;
        }
        Ok(())
    }
}
