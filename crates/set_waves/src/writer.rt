//! The waves of sets, written one after another.
ghost use Rattle.std.specs.Prelude.{◌≡◌, ◌↔◌, ◌+◌, ◌<◌, ℕ, IfOk, IsTrue, List, Some, length, slice_get, true};
ghost use Rattle.design_core.specs.declared.trace.Trace.{Trace as SomeTrace};
ghost use Rattle.design_core.specs.Valuation.{Valuation};
ghost use Rattle.cycle_sim.specs.Misses.{AreValuesFor};
ghost use Rattle.write_order.specs.Writes.{Leaves, WriteCause, on_shelf};
ghost use Rattle.set_waves.specs.Names.{wave_name as name_of};
ghost use Rattle.set_waves.specs.Scenes.{wave_text as text_of};
ghost use Rattle.set_waves.specs.Waved.{AreRuns, CanBeWaved, HaveValues, Runs, waved_of};
ghost use Rattle.set_waves.specs.Writes.{scene_of, set_writes, text_writes, waves_writes};
ghost use Rattle.set_waves.specs.Writing.{AreRunsWith, IsRunWith, IsShown, IsWriter};

use crate::name::wave_name;
use crate::rerun::Rerun;
use crate::waves::Waves;
use cycle_sim::Sim;
use design_core::{SetWithValues, Trace, Values};
use io_ports::Shelf;
use loc_base::{Bits, Bytes, NoMemory};
use refusal::Notes;
use std::alloc::Global;
use vcd_waves::{Wave, wave_text};
use write_order::{WriteErr, begin_text, put_piece};

/// A trace of a number, from 0, and values for places, of which the rows from `first` on are the trace's.
#[derive(Clone, Copy)]
pub(crate) struct Shown<'a> {
    pub(crate) values: &'a Values,
    pub(crate) trace: usize,
    pub(crate) first: usize,
}

/// What writes waves, by one simulator of their design.
#[derive(Drop)]
pub(crate) struct Writer<'a> {
    pub(crate) alloc: Global,
    pub(crate) waves: Waves<'a>,
    pub(crate) sim: Sim<'a>,
}

/// The trace of a number.
#[tactic(auto, using(plain_values::proofs::EvaluateWords::slice_get_at))]
fn trace_at(traces: &[Trace], j: usize) -> &Trace
    requires { j < length traces.now }
    ensures { slice_get traces.now j ≡ Some result.now }
{
    &traces[j]
}

/// The set of a number.
#[tactic(auto, using(plain_values::proofs::EvaluateWords::slice_get_at))]
fn set_at(sets: &[SetWithValues], s: usize) -> &SetWithValues
    requires { s < length sets.now }
    ensures { slice_get sets.now s ≡ Some result.now }
{
    &sets[s]
}

/// The number of cycles of a trace.
fn cycle_count(trace: &Trace) -> usize
    ensures { result ≡ trace.now.cycles }
{
    trace.cycles as usize
}

/// The same words again.
fn copied(alloc: Global, words: &[Bits]) -> Result<Vec<Bits>, NoMemory>
    ensures { IfOk result (λ copy. copy.items ≡ words.now) }
{
    let mut copy = Vec::new(alloc);
    copy.extend_from_slice(words)?;
    Ok(copy)
}

impl Writer<'_> {
    /// The wave of a trace with the values of a set.
    fn wave_of_set(&mut self, shown: &Shown) -> Result<Bytes, NoMemory>
        requires writer { IsWriter self.old }
        requires shown { IsShown (waved_of self.old.waves) shown.now }
        ensures writer { IsWriter self.new }
        ensures waves { self.new.waves ≡ self.old.waves }
        ensures text { IfOk result (λ text. (trace : SomeTrace) (run : List Valuation)
            → slice_get self.old.waves.traces.now shown.now.trace ≡ Some trace
            → IsRunWith (waved_of self.old.waves) shown.now.values.now shown.now.trace trace run
            → text ≡ text_of (scene_of (waved_of self.old.waves) shown.now.values.now shown.now.trace trace) run) }
    {
        let waves = self.waves;
        let trace = trace_at(waves.traces, shown.trace);
        let rerun = Rerun {
            design: waves.design,
            trace,
            values: shown.values,
            first: shown.first,
        };
        let expected = rerun.outputs(self.alloc, &mut self.sim)?;
        let seen = Trace {
            cycles: trace.cycles,
            inputs: copied(self.alloc, &trace.inputs)?,
            expected,
        };
        let wave = Wave {
            top: waves.top,
            design: waves.design,
            clock: waves.clock,
            trace: &seen,
            places: &shown.values.places,
            chosen: rerun.chosen(),
        };
        wave_text(self.alloc, &wave)
    }

    /// Writes the wave of a trace with the values of the set of a number.
    fn put_wave<S: Shelf, N: Notes>(
        &mut self,
        shown: &Shown,
        number: usize,
        shelf: &mut S,
        notes: &mut N,
    ) -> Result<(), WriteErr>
        requires writer { IsWriter self.old }
        requires shown { IsShown (waved_of self.old.waves) shown.now }
        ensures writer { IsWriter self.new }
        ensures waves { self.new.waves ≡ self.old.waves }
        ensures tells { S.tells shelf.new ≡ S.tells shelf.old }
        ensures texts { S.texts shelf.new ≡ S.texts shelf.old }
        ensures left { S.tells shelf.old ≡ true → (trace : SomeTrace) (run : List Valuation) (printed : List ℕ)
            → slice_get self.old.waves.traces.now shown.now.trace ≡ Some trace
            → IsRunWith (waved_of self.old.waves) shown.now.values.now shown.now.trace trace run
            → Leaves (text_writes (name_of self.old.waves.prefix.now number (shown.now.trace + 1))
            (text_of (scene_of (waved_of self.old.waves) shown.now.values.now shown.now.trace trace) run))
            (on_shelf (S.written shelf.old) (S.written shelf.new) printed) result }
        ensures cause { WriteCause (S.faults shelf.old) (S.faults shelf.new) result }
    {
        let Ok(text) = self.wave_of_set(shown) else {
            return Err(WriteErr::NoMemory);
        };
        let Ok(name) = wave_name(self.alloc, self.waves.prefix, number, shown.trace + 1) else {
            return Err(WriteErr::NoMemory);
        };
        begin_text(shelf, name.as_str(), notes)?;
        put_piece(shelf, name.as_str(), text.as_slice(), notes)
    }

    /// Writes the waves of the set of a number, for each trace.
    fn put_set<S: Shelf, N: Notes>(
        &mut self,
        values: &Values,
        number: usize,
        shelf: &mut S,
        notes: &mut N,
    ) -> Result<(), WriteErr>
        requires writer { IsWriter self.old }
        requires values { AreValuesFor self.old.waves.design.now self.old.waves.traces.now values.now }
        ensures writer { IsWriter self.new }
        ensures waves { self.new.waves ≡ self.old.waves }
        ensures tells { S.tells shelf.new ≡ S.tells shelf.old }
        ensures texts { S.texts shelf.new ≡ S.texts shelf.old }
        ensures left { S.tells shelf.old ≡ true → (runs : ℕ → List Valuation) (printed : List ℕ)
            → AreRunsWith (waved_of self.old.waves) values.now runs
            → Leaves (set_writes (waved_of self.old.waves) self.old.waves.prefix.now number values.now runs 0 self.old.waves.traces.now)
            (on_shelf (S.written shelf.old) (S.written shelf.new) printed) result }
        ensures cause { WriteCause (S.faults shelf.old) (S.faults shelf.new) result }
    {
        let traces = self.waves.traces;
        let mut first = 0;
        for j in 0..traces.len() {
            let shown = Shown {
                values,
                trace: j,
                first,
            };
            self.put_wave(&shown, number, shelf, notes)?;
            first += cycle_count(trace_at(traces, j));
        }
        Ok(())
    }
}

/// Whether there is a wave to write.
fn are_due(waves: &Waves, sets: &[SetWithValues]) -> bool
    ensures { IsTrue result ↔ ((0 < length sets.now) × (0 < length waves.now.traces.now)) }
{
    !sets.is_empty() && !waves.traces.is_empty()
}

/// Writes the waves of sets, of which there are some.
fn put_all<S: Shelf, N: Notes>(
    alloc: Global,
    waves: &Waves,
    sets: &[SetWithValues],
    shelf: &mut S,
    notes: &mut N,
) -> Result<(), WriteErr>
    requires can { CanBeWaved (waved_of waves.now) waves.now.order.now }
    requires values { HaveValues (waved_of waves.now) sets.now }
    requires sets { 0 < length sets.now }
    requires traces { 0 < length waves.now.traces.now }
    ensures tells { S.tells shelf.new ≡ S.tells shelf.old }
    ensures texts { S.texts shelf.new ≡ S.texts shelf.old }
    ensures left { S.tells shelf.old ≡ true → (runs : Runs) (printed : List ℕ) → AreRuns (waved_of waves.now) sets.now runs
        → Leaves (waves_writes (waved_of waves.now) waves.now.prefix.now runs 0 sets.now)
        (on_shelf (S.written shelf.old) (S.written shelf.new) printed) result }
    ensures cause { WriteCause (S.faults shelf.old) (S.faults shelf.new) result }
{
    let Ok(sim) = Sim::new(alloc, waves.design, waves.order) else {
        return Err(WriteErr::NoMemory);
    };
    let mut writer = Writer {
        alloc,
        waves: *waves,
        sim,
    };
    for s in 0..sets.len() {
        writer.put_set(&set_at(sets, s).values, s + 1, shelf, notes)?;
    }
    Ok(())
}

/// Writes the waves of sets: by set and then trace, each made, begun and put before the next. In each the outputs are those that the
/// run with the set's values gives, all of them checked, and the places of the set stand in a scope of their own.
pub fn put_waves<S: Shelf, N: Notes>(
    alloc: Global,
    waves: &Waves,
    sets: &[SetWithValues],
    shelf: &mut S,
    notes: &mut N,
) -> Result<(), WriteErr>
    requires can { CanBeWaved (waved_of waves.now) waves.now.order.now }
    requires values { HaveValues (waved_of waves.now) sets.now }
    ensures tells { S.tells shelf.new ≡ S.tells shelf.old }
    ensures texts { S.texts shelf.new ≡ S.texts shelf.old }
    ensures left { S.tells shelf.old ≡ true → (runs : Runs) (printed : List ℕ) → AreRuns (waved_of waves.now) sets.now runs
        → Leaves (waves_writes (waved_of waves.now) waves.now.prefix.now runs 0 sets.now)
        (on_shelf (S.written shelf.old) (S.written shelf.new) printed) result }
    ensures cause { WriteCause (S.faults shelf.old) (S.faults shelf.new) result }
{
    if are_due(waves, sets) {
        put_all(alloc, waves, sets, shelf, notes)
    } else {
        Ok(())
    }
}
