//! The simulator that users see, with room for the values that replay chooses.

ghost use Rattle.std.specs.Prelude.{◌≡◌, ◌<◌, ℕ, IsTrue, IfOk, length};
ghost use Rattle.loc_base.specs.Bits.{width_of, bit_of};
ghost use Rattle.design_core.specs.Valuation.{width_at};
ghost use Rattle.design_core.specs.TraceFits.{samples_fit};
ghost use Rattle.design_core.specs.Words.{choice_of};
ghost use Rattle.design_core.specs.Given.{AreChosen};
ghost use Rattle.cycle_sim.specs.Simulated.{CanSimulate, at_start, Steps};
ghost use Rattle.cycle_sim.specs.Simulator.{IsSim, held_by};

use crate::machine::Machine;
use cycle_code::Choices;
use design_core::Design;
use design_core::types::Order;
use loc_base::{Bits, NoMemory};
use std::alloc::Global;

/// A design that is simulated, cycle by cycle. Contracts see it by `held_by`: the design, the order of its drivers, the
/// values of the last step, and the states with which the next one begins. `IsSim` is true of every simulator.
#[derive(Drop)]
pub struct Sim<'a> {
    pub(crate) machine: Machine<'a>,
    /// For each place whether replay frees it, and the value that replay chooses for it in a cycle.
    pub(crate) freed: Vec<bool>,
    pub(crate) choice: Vec<Bits>,
}

/// So many places, none of them freed.
fn none_freed(alloc: Global, count: usize) -> Result<Vec<bool>, NoMemory>
    ensures { IfOk result (λ freed. length freed.items ≡ count) }
{
    let mut freed = Vec::new(alloc);
    for _k in 0..count {
        freed.push(false)?;
    }
    Ok(freed)
}

/// A word of 0 for each of so many places.
fn none_chosen(alloc: Global, count: usize) -> Result<Vec<Bits>, NoMemory>
    ensures { IfOk result (λ choice. length choice.items ≡ count) }
{
    let mut choice = Vec::new(alloc);
    for _k in 0..count {
        choice.push(Bits::zero(1))?;
    }
    Ok(choice)
}

impl<'a> Sim<'a> {
    /// Makes all the room that the other calls need; they take no memory. The drivers are carried out in the order.
    pub fn new(alloc: Global, design: &'a Design, order: &'a Order) -> Result<Sim<'a>, NoMemory>
        requires { CanSimulate design.now order.now }
        ensures sim { IfOk result IsSim }
        ensures start { IfOk result (λ sim. held_by sim ≡ at_start design.now order.now) }
    {
        let machine = Machine::new(alloc, design, order)?;
        let freed = none_freed(alloc, design.places.len())?;
        let choice = none_chosen(alloc, design.places.len())?;
        Ok(Sim {
            machine,
            freed,
            choice,
        })
    }

    /// Makes the cycle for these samples of the inputs, one for each: leaves its values to be read, and moves the states to
    /// the next ones. `freed` and `choice` have one entry for each place of the design: whether it is freed, and the value
    /// that it then takes. Takes no memory. What it leaves is not said where the design is not simulable.
    pub fn step(&mut self, samples: &[Bits], freed: &[bool], choice: &[Bits])
        requires sim { IsSim self.old }
        requires samples { IsTrue (samples_fit (held_by self.old).design.signals.items (held_by self.old).design.inputs.items samples.now) }
        requires choice { AreChosen (held_by self.old).design freed.now choice.now }
        ensures sim { IsSim self.new }
        ensures step { Steps samples.now (choice_of freed.now choice.now) (held_by self.old) (held_by self.new) }
    {
        let choices = Choices {
            freed,
            chosen: choice,
        };
        self.machine.step(samples, &choices);
    }

    /// Goes back to where `new` began. Takes no memory.
    pub fn reset(&mut self)
        requires { IsSim self.old }
        ensures sim { IsSim self.new }
        ensures start { held_by self.new ≡ at_start (held_by self.old).design (held_by self.old).order }
    {
        self.machine.reset();
    }

    /// The value of a signal in the last step, 0 before the first one. Takes no memory.
    pub fn value(&self, signal: u32) -> Bits
        requires sim { IsSim self.now }
        requires signal { signal < length (held_by self.now).design.signals.items }
        ensures width { width_of result ≡ width_at (held_by self.now).design.signals.items signal }
        ensures bits { (b : ℕ) → bit_of result b ≡ (held_by self.now).values signal b }
    {
        self.machine.value(signal)
    }
}
