//! Whether values that were chosen for places make traces right, cycle by cycle.

ghost use Rattle.std.specs.Prelude.{◌≡◌, ◌+◌, ◌*◌, ◌<◌, ◌≤◌, ◌^◌, ◌||◌, ℕ, IsTrue, All, length, map, slice_get, Some, false, if◌then◌else◌};
ghost use Rattle.loc_base.specs.Bits.{value_of};
ghost use Rattle.design_core.specs.Words.{valuation_of, AreWordsOf};
ghost use Rattle.design_core.specs.Given.{AreChosen, freed_of};
ghost use Rattle.design_core.specs.TraceFits.{IsTraceOf, expected_fit};
ghost use Rattle.design_core.specs.Explained.{is_one_of, number_for};
ghost use Rattle.cycle_sim.specs.Simulated.{IsSimulable, at_start};
ghost use Rattle.cycle_sim.specs.Holding.{IsHolding, simulated_of};
ghost use Rattle.cycle_sim.specs.Misses.{AreValuesFor, Replays};
ghost use Rattle.cycle_sim.specs.Replaying.{FirstWrong, CycleReplays, TraceReplays, AreReady, chosen_at, choices_from};
ghost use Rattle.cycle_sim.specs.Simulator.{IsSim, held_by};

use crate::compiled::number_at;
use crate::machine::Machine;
use crate::miss::Miss;
use crate::sim::Sim;
use cycle_code::Choices;
use design_core::{Checked, Design, Trace, Values};
use loc_base::Bits;
use plain_sim::is_right;
use plain_values::row;

/// Puts the words of a row into the places' entries, from the last place to the first.
fn choose(places: &[u32], row: &[Bits], choice: &mut [Bits])
    requires places { All (λ p. p < length choice.old) places.now }
    requires row { length row.now ≡ length places.now }
    ensures length { length choice.new ≡ length choice.old }
    ensures choice { (p : ℕ) → chosen_at choice.new p
        ≡ (if is_one_of places.now p then number_for places.now (map value_of row.now) p else chosen_at choice.old p) }
{
    let mut left = places.len();
    while left > 0 {
        left -= 1;
        choice[number_at(places, left)] = row[left];
    }
}

/// Frees no place and chooses 0 for each.
fn free_none(freed: &mut [bool], choice: &mut [Bits])
    requires { length choice.old ≡ length freed.old }
    ensures freed_length { length freed.new ≡ length freed.old }
    ensures choice_length { length choice.new ≡ length choice.old }
    ensures freed { (p : ℕ) → freed_of freed.new p ≡ false }
    ensures choice { (p : ℕ) → chosen_at choice.new p ≡ 0 }
{
    for p in 0..freed.len() {
        freed[p] = false;
        choice[p] = Bits::zero(1);
    }
}

/// Frees some places, beside those that are.
fn free_places(places: &[u32], freed: &mut [bool])
    requires { All (λ p. p < length freed.old) places.now }
    ensures length { length freed.new ≡ length freed.old }
    ensures freed { (p : ℕ) → freed_of freed.new p ≡ (is_one_of places.now p || freed_of freed.old p) }
{
    for k in 0..places.len() {
        freed[number_at(places, k)] = true;
    }
}

/// The number of the first output whose checked bits are not all as expected.
fn first_wrong(design: &Design, expected: &[Checked], words: &[Bits]) -> Option<u32>
    requires words { AreWordsOf design.now.signals.items words.now }
    requires expected { IsTrue (expected_fit design.now.signals.items design.now.outputs.items expected.now) }
    requires few { length design.now.outputs.items < 2 ^ 32 }
    ensures { FirstWrong design.now expected.now (valuation_of words.now) result }
{
    for i in 0..expected.len() {
        let checked = expected[i];
        let word = words[design.outputs[i] as usize];
        if !is_right(word, checked) {
            return Some(i as u32);
        }
    }
    None
}

/// Makes the cycle of a number with its chosen values, and answers the first output that is not right. The values of the
/// trace stand in the rows from `first` on.
fn replay_cycle(
    machine: &mut Machine,
    freed: &[bool],
    choice: &mut [Bits],
    trace: &Trace,
    values: &Values,
    first: usize,
    t: u32,
) -> Option<u32>
    requires holding { IsHolding machine.old }
    requires chosen { AreChosen machine.old.design.now freed.now choice.old }
    requires trace { IsTraceOf machine.old.design.now trace.now }
    requires time { t < trace.now.cycles }
    requires few { length machine.old.design.now.outputs.items < 2 ^ 32 }
    requires places { All (λ p. p < length machine.old.design.now.places.items) values.now.places.items }
    requires rows { (first + trace.now.cycles) * length values.now.places.items ≤ length values.now.rows.items }
    requires numbers { first + trace.now.cycles < 2 ^ 64 }
    requires ready { AreReady values.now freed.now choice.old }
    ensures holding { IsHolding machine.new }
    ensures design { machine.new.design.now ≡ machine.old.design.now }
    ensures order { machine.new.order.now ≡ machine.old.order.now }
    ensures length { length choice.new ≡ length choice.old }
    ensures ready { AreReady values.now freed.now choice.new }
    ensures answer { IsSimulable machine.old.design.now machine.old.order.now → CycleReplays machine.old.design.now trace.now values.now first t
        (simulated_of machine.old).state (simulated_of machine.new).state result }
{
    let design = machine.design;
    let chosen = row(&values.rows, values.places.len(), first + t as usize);
    choose(&values.places, chosen, choice);
    let samples = row(&trace.inputs, design.inputs.len(), t as usize);
    let choices = Choices {
        freed,
        chosen: choice,
    };
    machine.step(samples, &choices);
    let expected = row(&trace.expected, design.outputs.len(), t as usize);
    first_wrong(design, expected, machine.values())
}

/// The first cycle of a trace in which an output is not right, with the first such output, the machine being where it began.
/// The values of the trace stand in the rows from `first` on.
fn replay_trace(
    machine: &mut Machine,
    freed: &[bool],
    choice: &mut [Bits],
    trace: &Trace,
    values: &Values,
    first: usize,
) -> Option<(u32, u32)>
    requires holding { IsHolding machine.old }
    requires start { simulated_of machine.old ≡ at_start machine.old.design.now machine.old.order.now }
    requires chosen { AreChosen machine.old.design.now freed.now choice.old }
    requires trace { IsTraceOf machine.old.design.now trace.now }
    requires few { length machine.old.design.now.outputs.items < 2 ^ 32 }
    requires places { All (λ p. p < length machine.old.design.now.places.items) values.now.places.items }
    requires rows { (first + trace.now.cycles) * length values.now.places.items ≤ length values.now.rows.items }
    requires numbers { first + trace.now.cycles < 2 ^ 64 }
    requires ready { AreReady values.now freed.now choice.old }
    ensures holding { IsHolding machine.new }
    ensures design { machine.new.design.now ≡ machine.old.design.now }
    ensures order { machine.new.order.now ≡ machine.old.order.now }
    ensures length { length choice.new ≡ length choice.old }
    ensures ready { AreReady values.now freed.now choice.new }
    ensures answer { IsSimulable machine.old.design.now machine.old.order.now
        → TraceReplays machine.old.design.now trace.now (is_one_of values.now.places.items) (choices_from values.now first) result }
{
    for t in 0..trace.cycles {
        if let Some(output) = replay_cycle(machine, freed, choice, trace, values, first, t) {
            return Some((t, output));
        }
    }
    None
}

/// The number of cycles of a trace.
fn cycle_count(trace: &Trace) -> usize
    ensures value { result ≡ trace.now.cycles }
    ensures few { result < 2 ^ 32 }
{
    trace.cycles as usize
}

/// How many rows of the values stand for so many cycles: none where no place is listed.
fn rows_for(values: &Values, cycles: usize) -> usize
    ensures rows { result * length values.now.places.items ≡ cycles * length values.now.places.items }
    ensures none { length values.now.places.items ≡ 0 → result ≡ 0 }
    ensures few { result ≤ cycles }
{
    if values.places.is_empty() { 0 } else { cycles }
}

/// The trace of a number.
#[tactic(auto, using(plain_values::proofs::EvaluateWords::slice_get_at))]
fn trace_at(traces: &[Trace], j: usize) -> &Trace
    requires { j < length traces.now }
    ensures { slice_get traces.now j ≡ Some result.now }
{
    &traces[j]
}

/// The least miss of the traces with the values, none where each trace is right.
fn replay_traces(
    machine: &mut Machine,
    freed: &[bool],
    choice: &mut [Bits],
    traces: &[Trace],
    values: &Values,
) -> Option<Miss>
    requires holding { IsHolding machine.old }
    requires chosen { AreChosen machine.old.design.now freed.now choice.old }
    requires traces { All (IsTraceOf machine.old.design.now) traces.now }
    requires many { length traces.now < 2 ^ 32 }
    requires few { length machine.old.design.now.outputs.items < 2 ^ 32 }
    requires values { AreValuesFor machine.old.design.now traces.now values.now }
    requires ready { AreReady values.now freed.now choice.old }
    ensures holding { IsHolding machine.new }
    ensures design { machine.new.design.now ≡ machine.old.design.now }
    ensures order { machine.new.order.now ≡ machine.old.order.now }
    ensures length { length choice.new ≡ length choice.old }
    ensures answer { IsSimulable machine.old.design.now machine.old.order.now → Replays machine.old.design.now traces.now values.now result }
{
    let mut first = 0;
    for j in 0..traces.len() {
        let trace = trace_at(traces, j);
        let cycles = cycle_count(trace);
        machine.reset();
        if let Some((cycle, output)) = replay_trace(machine, freed, choice, trace, values, first) {
            return Some(Miss {
                trace: j as u32,
                cycle,
                output,
            });
        }
        first += rows_for(values, cycles);
    }
    None
}

/// The least miss of the traces, by the trace, then the cycle, then the output, where the values are chosen for their places:
/// one word for each place in each cycle, first all cycles of the first trace. None where each trace is right. Takes no
/// memory; what the simulator held before is lost. Where the design is not simulable, nothing is said of the answer.
pub fn replay(sim: &mut Sim, traces: &[Trace], values: &Values) -> Option<Miss>
    requires sim { IsSim sim.old }
    requires traces { All (IsTraceOf (held_by sim.old).design) traces.now }
    requires many { length traces.now < 2 ^ 32 }
    requires few { length (held_by sim.old).design.outputs.items < 2 ^ 32 }
    requires values { AreValuesFor (held_by sim.old).design traces.now values.now }
    ensures sim { IsSim sim.new }
    ensures design { (held_by sim.new).design ≡ (held_by sim.old).design }
    ensures order { (held_by sim.new).order ≡ (held_by sim.old).order }
    ensures answer { IsSimulable (held_by sim.old).design (held_by sim.old).order → Replays (held_by sim.old).design traces.now values.now result }
{
    free_none(&mut sim.freed, &mut sim.choice);
    free_places(&values.places, &mut sim.freed);
    replay_traces(
        &mut sim.machine,
        &sim.freed,
        &mut sim.choice,
        traces,
        values,
    )
}
