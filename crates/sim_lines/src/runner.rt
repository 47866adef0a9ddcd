//! A design that is simulated as it is, no place of it freed.
ghost use Rattle.std.specs.Prelude.{◌≡◌, ◌<◌, false, All, IfOk, IfSome, None, length, true};
ghost use Rattle.std.specs.Option.{option_map};
ghost use Rattle.loc_base.specs.Bits.{value_of};
ghost use Rattle.design_core.specs.Run.{expected_at, samples_at};
ghost use Rattle.design_core.specs.TraceFits.{IsTraceOf};
ghost use Rattle.cycle_sim.specs.Simulated.{Steps, at_start};
ghost use Rattle.cycle_sim.specs.Simulator.{held_by};
ghost use Rattle.io_ports.specs.Sink.{SinkAppends, SinkCause};
ghost use Rattle.sim_lines.specs.Lines.{cycle_line, end_line, line_text};
ghost use Rattle.sim_lines.specs.CanShow.{CanShow};
ghost use Rattle.sim_lines.specs.Running.{EndAfter, IsRunner, IsSameRunner, design_of, order_of, no_choice, place_of};

use crate::checks::{Miss, first_wrong, note_miss};
use crate::lines::{Moment, Wrong, push_cycle, push_end};
use cycle_sim::Sim;
use design_core::types::Order;
use design_core::{Design, Trace};
use io_ports::{Sink, SinkFault};
use loc_base::{Bits, NoMemory};
use plain_values::row;
use refusal::Notes;
use std::alloc::Global;

/// A simulator of a design, with what says that no place is freed, and the room of a line.
#[derive(Drop)]
pub(crate) struct Runner<'a> {
    pub(crate) design: &'a Design,
    pub(crate) sim: Sim<'a>,
    /// An entry for each place: that it is not freed, and a word that no one reads.
    pub(crate) freed: Vec<bool>,
    pub(crate) choice: Vec<Bits>,
    pub(crate) line: Vec<u8>,
}

/// So many places, none of them freed.
#[tactic(auto, using(crate::proofs::RunnerLaws::entry_rules))]
fn none_freed(alloc: Global, count: usize) -> Result<Vec<bool>, NoMemory>
    ensures count { IfOk result (λ freed. length freed.items ≡ count) }
    ensures none { IfOk result (λ freed. All (λ b. b ≡ false) freed.items) }
{
    let mut freed = Vec::new(alloc);
    for _k in 0..count {
        freed.push(false)?;
    }
    Ok(freed)
}

/// A word of 0 for each of so many places.
#[tactic(auto, using(crate::proofs::RunnerLaws::entry_rules))]
fn none_chosen(alloc: Global, count: usize) -> Result<Vec<Bits>, NoMemory>
    ensures count { IfOk result (λ choice. length choice.items ≡ count) }
    ensures zeros { IfOk result (λ choice. All (λ w. value_of w ≡ 0) choice.items) }
{
    let mut choice = Vec::new(alloc);
    for _k in 0..count {
        choice.push(Bits::zero(1))?;
    }
    Ok(choice)
}

impl<'a> Runner<'a> {
    pub(crate) fn new(
        alloc: Global,
        design: &'a Design,
        order: &'a Order,
    ) -> Result<Runner<'a>, NoMemory>
        requires { CanShow design.now order.now }
        ensures runner { IfOk result IsRunner }
        ensures design { IfOk result (λ r. design_of r ≡ design.now) }
        ensures order { IfOk result (λ r. order_of r ≡ order.now) }
    {
        let sim = Sim::new(alloc, design, order)?;
        let freed = none_freed(alloc, design.places.len())?;
        let choice = none_chosen(alloc, design.places.len())?;
        Ok(Runner {
            design,
            sim,
            freed,
            choice,
            line: Vec::new(alloc),
        })
    }

    /// Makes the cycle of a number.
    fn step(&mut self, trace: &Trace, cycle: u32)
        requires runner { IsRunner self.old }
        requires trace { IsTraceOf (design_of self.old) trace.now }
        requires time { cycle < trace.now.cycles }
        ensures runner { IsRunner self.new }
        ensures same { IsSameRunner self.old self.new }
        ensures step { Steps (samples_at (design_of self.old) trace.now cycle) no_choice (held_by self.old.sim) (held_by self.new.sim) }
    {
        let samples = row(&trace.inputs, self.design.inputs.len(), cycle as usize);
        self.sim.step(samples, &self.freed, &self.choice);
    }

    /// Prints the outputs of the cycle that was made.
    fn put_cycle<O: Sink>(&mut self, moment: Moment, out: &mut O) -> Result<(), SinkFault>
        requires runner { IsRunner self.old }
        ensures runner { IsRunner self.new }
        ensures sim { held_by self.new.sim ≡ held_by self.old.sim }
        ensures tells { O.tells out.new ≡ O.tells out.old }
        ensures text { O.tells out.old ≡ true
            → SinkAppends (line_text (cycle_line (design_of self.old) moment.trace moment.cycle (held_by self.old.sim).values)) (O.written out.old) (O.written out.new) result }
        ensures cause { SinkCause (O.faults out.old) (O.faults out.new) result }
    {
        self.line.clear();
        push_cycle(&mut self.line, self.design, &self.sim, moment)?;
        out.put(&self.line)
    }

    /// Makes the cycle of a number, and prints its outputs.
    pub(crate) fn show_cycle<O: Sink>(
        &mut self,
        trace: &Trace,
        moment: Moment,
        out: &mut O,
    ) -> Result<(), SinkFault>
        requires runner { IsRunner self.old }
        requires trace { IsTraceOf (design_of self.old) trace.now }
        requires time { moment.cycle < trace.now.cycles }
        ensures runner { IsRunner self.new }
        ensures same { IsSameRunner self.old self.new }
        ensures step { Steps (samples_at (design_of self.old) trace.now moment.cycle) no_choice (held_by self.old.sim) (held_by self.new.sim) }
        ensures tells { O.tells out.new ≡ O.tells out.old }
        ensures text { O.tells out.old ≡ true
            → SinkAppends (line_text (cycle_line (design_of self.old) moment.trace moment.cycle (held_by self.new.sim).values)) (O.written out.old) (O.written out.new) result }
        ensures cause { SinkCause (O.faults out.old) (O.faults out.new) result }
    {
        self.step(trace, moment.cycle);
        self.put_cycle(moment, out)
    }

    /// Goes back to where the design begins.
    pub(crate) fn reset(&mut self)
        requires { IsRunner self.old }
        ensures runner { IsRunner self.new }
        ensures same { IsSameRunner self.old self.new }
        ensures start { held_by self.new.sim ≡ at_start (design_of self.old) (order_of self.old) }
    {
        self.sim.reset();
    }

    /// Where a cycle, which was made, is not right. That is told.
    fn wrong_in<N: Notes>(&self, trace: &Trace, moment: Moment, notes: &mut N) -> Option<Wrong>
        requires runner { IsRunner self.now }
        requires trace { IsTraceOf (design_of self.now) trace.now }
        requires time { moment.cycle < trace.now.cycles }
        ensures { EndAfter (design_of self.now) (expected_at (design_of self.now) trace.now moment.cycle) (held_by self.now.sim).values
            moment.cycle None result }
    {
        let cycle = moment.cycle;
        let expected = row(&trace.expected, self.design.outputs.len(), cycle as usize);
        match first_wrong(self.design, &self.sim, expected) {
            Some(output) => {
                let miss = Miss {
                    moment,
                    output,
                    expected,
                };
                note_miss(self.design, &self.sim, &miss, notes);
                Some(Wrong { cycle, output })
            }
            None => None,
        }
    }

    /// Where a trace first is not right up to a cycle, which was made, by where it first is not before it. The first is told.
    pub(crate) fn end_after<N: Notes>(
        &self,
        before: Option<Wrong>,
        trace: &Trace,
        moment: Moment,
        notes: &mut N,
    ) -> Option<Wrong>
        requires runner { IsRunner self.now }
        requires trace { IsTraceOf (design_of self.now) trace.now }
        requires time { moment.cycle < trace.now.cycles }
        ensures { EndAfter (design_of self.now) (expected_at (design_of self.now) trace.now moment.cycle) (held_by self.now.sim).values
            moment.cycle before result }
    {
        match before {
            Some(miss) => Some(miss),
            None => self.wrong_in(trace, moment, notes),
        }
    }

    /// Prints how a trace ends.
    pub(crate) fn show_end<O: Sink>(
        &mut self,
        number: u32,
        miss: Option<Wrong>,
        out: &mut O,
    ) -> Result<(), SinkFault>
        requires runner { IsRunner self.old }
        requires output { IfSome miss (λ m. m.output < length (design_of self.old).outputs.items) }
        ensures runner { IsRunner self.new }
        ensures same { IsSameRunner self.old self.new }
        ensures tells { O.tells out.new ≡ O.tells out.old }
        ensures text { O.tells out.old ≡ true
            → SinkAppends (line_text (end_line (design_of self.old) number (option_map place_of miss))) (O.written out.old) (O.written out.new) result }
        ensures cause { SinkCause (O.faults out.old) (O.faults out.new) result }
    {
        self.line.clear();
        push_end(&mut self.line, self.design, number, miss)?;
        out.put(&self.line)
    }
}
