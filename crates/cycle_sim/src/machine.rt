//! The simulator's machine: the words of a design and its cycles.

ghost use Rattle.std.specs.Prelude.{◌≡◌, ◌<◌, ℕ, IsTrue, IfOk, length};
ghost use Rattle.std.specs.List.{list_all};
ghost use Rattle.loc_base.specs.Bits.{width_of, bit_of};
ghost use Rattle.design_core.specs.Valuation.{width_at};
ghost use Rattle.design_core.specs.TraceFits.{samples_fit};
ghost use Rattle.design_core.specs.Constant.{zeros};
ghost use Rattle.design_core.specs.WellFormed.{signal_fits};
ghost use Rattle.design_core.specs.Words.{valuation_of, AreWordsOf};
ghost use Rattle.cycle_sim.specs.Simulated.{CanSimulate, IsSimulable, at_start, Steps};
ghost use Rattle.cycle_code.specs.Choosing.{AreChoices, as_choice};
ghost use Rattle.cycle_code.specs.Program.{program_of};
ghost use Rattle.cycle_code.specs.Fitting.{IsSound};
ghost use Rattle.cycle_sim.specs.Compiled.{AreCells, IsCompiled, now_in, later_in};
ghost use Rattle.cycle_sim.specs.Holding.{IsHolding, IsPlan, AreQuiet, simulated_of, starts};
ghost use Rattle.design_core.specs.Cycle.{Cycle};
ghost use Rattle.design_core.specs.Steps.{kept};

use crate::begin::begin_cells;
use crate::block::{reset_blocks, run_blocks};
use crate::compiled::{Compiled, compile};
use crate::plan::{Plan, plan_of, signal_at};
use cycle_code::{Choices, Code, run};
use design_core::types::Order;
use design_core::{Design, Signal};
use loc_base::{Bits, NoMemory};
use std::alloc::Global;

/// A design that is simulated, cycle by cycle: its words, and what was made of it once.
#[derive(Drop)]
pub(crate) struct Machine<'a> {
    pub(crate) design: &'a Design,
    order: &'a [u32],
    plan: Plan,
    compiled: Compiled<'a>,
    /// The values of the signals, their states, and as much room for the bits that a clocked block assigns by `=`; then the cells
    /// of the instructions.
    cells: Vec<Bits>,
}

/// A copy of words.
fn copied(alloc: Global, words: &[Bits]) -> Result<Vec<Bits>, NoMemory>
    ensures { IfOk result (λ copy. copy.items ≡ words.now) }
{
    let mut copy = Vec::new(alloc);
    for word in words {
        copy.push(*word)?;
    }
    Ok(copy)
}

/// Puts every word at the start value of its signal.
fn restart(signals: &[Signal], words: &mut [Bits])
    requires signals { IsTrue (list_all signal_fits signals.now) }
    requires words { AreWordsOf signals.now words.old }
    ensures words { AreWordsOf signals.now words.new }
    ensures value { valuation_of words.new ≡ starts signals.now }
{
    for k in 0..words.len() {
        words[k] = signal_at(signals, k).start;
    }
}

/// Puts every word at 0.
fn clear(signals: &[Signal], words: &mut [Bits])
    requires words { AreWordsOf signals.now words.old }
    ensures words { AreWordsOf signals.now words.new }
    ensures value { valuation_of words.new ≡ zeros }
{
    for k in 0..words.len() {
        words[k] = Bits::zero(words[k].width());
    }
}

/// Puts the values at 0 and the states at the start values.
fn restart_cells(code: &Code, cells: &mut [Bits])
    requires sound { IsSound (program_of code.now) }
    requires signals { IsTrue (list_all signal_fits code.now.design.now.signals.items) }
    requires cells { AreCells (program_of code.now) cells.old }
    ensures cells { AreCells (program_of code.now) cells.new }
    ensures now { now_in (program_of code.now) (valuation_of cells.new) ≡ zeros }
    ensures later { later_in (program_of code.now) (valuation_of cells.new) ≡ starts code.now.design.now.signals.items }
{
    let design = code.design;
    let count = design.signals.len();
    let (values, rest) = cells.split_at_mut(count);
    let (state, _) = rest.split_at_mut(count);
    clear(&design.signals, values);
    restart(&design.signals, state);
}

/// Makes a cycle on the cells: inputs and registers first, then the resets that are active, the drivers in their order, and
/// the bodies of the blocks without an active reset.
fn make_cycle(
    compiled: &Compiled,
    order: &[u32],
    plan: &Plan,
    samples: &[Bits],
    choices: &Choices,
    cells: &mut [Bits],
)
    requires can { CanSimulate compiled.now.code.design.now order.now }
    requires compiled { IsCompiled compiled.now.code.design.now order.now compiled.now }
    requires plan { IsPlan compiled.now.code.design.now plan.now }
    requires samples { IsTrue (samples_fit compiled.now.code.design.now.signals.items compiled.now.code.design.now.inputs.items samples.now) }
    requires choices { AreChoices compiled.now.code.design.now choices.now }
    requires cells { AreCells (program_of compiled.now.code) cells.old }
    ensures cells { AreCells (program_of compiled.now.code) cells.new }
    ensures cycle { IsSimulable compiled.now.code.design.now order.now
        → AreQuiet compiled.now.code.design.now (now_in (program_of compiled.now.code) (valuation_of cells.old))
        → Cycle compiled.now.code.design.now samples.now
        (kept compiled.now.code.design.now (later_in (program_of compiled.now.code) (valuation_of cells.old))) (as_choice choices.now)
        (now_in (program_of compiled.now.code) (valuation_of cells.new))
        (kept compiled.now.code.design.now (later_in (program_of compiled.now.code) (valuation_of cells.new))) }
{
    let code = &compiled.code;
    begin_cells(code, &plan.registers, samples, cells);
    reset_blocks(code, &compiled.resets, &plan.blocks, choices, cells);
    run(code, compiled.drivers, choices, cells);
    run_blocks(code, &compiled.bodies, &plan.blocks, choices, cells);
}

impl<'a> Machine<'a> {
    /// Makes all the room that the calls below need. The drivers are carried out in the order.
    pub(crate) fn new(
        alloc: Global,
        design: &'a Design,
        order: &'a Order,
    ) -> Result<Machine<'a>, NoMemory>
        requires { CanSimulate design.now order.now }
        ensures holding { IfOk result IsHolding }
        ensures start { IfOk result (λ machine. simulated_of machine ≡ at_start design.now order.now) }
    {
        let plan = plan_of(alloc, design)?;
        let compiled = compile(alloc, design, order.as_slice(), &plan.drivers)?;
        let mut cells = copied(alloc, &compiled.code.cells)?;
        restart_cells(&compiled.code, &mut cells);
        Ok(Machine {
            design,
            order: order.as_slice(),
            plan,
            compiled,
            cells,
        })
    }

    /// Goes back to where `new` began. Takes no memory.
    pub(crate) fn reset(&mut self)
        requires { IsHolding self.old }
        ensures holding { IsHolding self.new }
        ensures start { simulated_of self.new ≡ at_start self.old.design.now self.old.order.now }
    {
        restart_cells(&self.compiled.code, &mut self.cells);
    }

    /// The value of a signal in the last step, 0 before the first one. Takes no memory.
    pub(crate) fn value(&self, signal: u32) -> Bits
        requires holding { IsHolding self.now }
        requires signal { signal < length self.now.design.now.signals.items }
        ensures width { width_of result ≡ width_at self.now.design.now.signals.items signal }
        ensures bits { (b : ℕ) → bit_of result b ≡ (simulated_of self.now).values signal b }
    {
        self.cells[signal as usize]
    }

    /// The values of all signals in the last step.
    pub(crate) fn values(&self) -> &[Bits]
        requires { IsHolding self.now }
        ensures words { AreWordsOf self.now.design.now.signals.items result.now }
        ensures value { valuation_of result.now ≡ (simulated_of self.now).values }
    {
        &self.cells[..self.design.signals.len()]
    }

    /// Makes the cycle for these samples of the inputs, one for each: leaves its values to be read, and moves the states to
    /// the next ones. Takes no memory.
    pub(crate) fn step(&mut self, samples: &[Bits], choices: &Choices)
        requires holding { IsHolding self.old }
        requires samples { IsTrue (samples_fit self.old.design.now.signals.items self.old.design.now.inputs.items samples.now) }
        requires choices { AreChoices self.old.design.now choices.now }
        ensures holding { IsHolding self.new }
        ensures step { Steps samples.now (as_choice choices.now) (simulated_of self.old) (simulated_of self.new) }
    {
        make_cycle(
            &self.compiled,
            self.order,
            &self.plan,
            samples,
            choices,
            &mut self.cells,
        );
    }
}
