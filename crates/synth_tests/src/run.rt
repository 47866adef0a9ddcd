//! Designs by their nets and by the simulator, cycle by cycle.

ghost use Rattle.std.specs.Prelude.{◌≡◌};
ghost use Rattle.cycle_sim.specs.Simulator.{IsSim, held_by};

use crate::build::bits;
use cycle_sim::{Sim, can_simulate};
use design_core::Design;
use design_core::types::Order;
use design_fits::samples_fit;
use loc_base::Bits;
use net_values::{are_given, eval_into};
use std::alloc::Global;
use std::test::Fail;
use word_net::WordNet;

/// The places that are freed, and their values: one entry for each place.
#[derive(Drop)]
pub(super) struct Chosen {
    pub(super) freed: Vec<bool>,
    pub(super) words: Vec<Bits>,
}

/// The samples of a cycle, taken from a pattern that changes from input to input and from cycle to cycle.
fn samples_of(alloc: Global, design: &Design, cycle: u128) -> Result<Vec<Bits>, Fail> {
    let mut words = Vec::new(alloc);
    let mut number: u128 = 11;
    for input in &design.inputs {
        let next = number.wrapping_mul(29).wrapping_add(cycle.wrapping_mul(7));
        number = next % 1021 + 3;
        let Some(signal) = design.signals.get(*input as usize) else {
            return Err(Fail::new("no such signal"));
        };
        let Some(full) = Bits::new(16, number / 4) else {
            return Err(Fail::new("no word"));
        };
        let word = if signal.width <= 16 && signal.width >= 1 {
            full.cut(signal.width)
        } else {
            bits(signal.width, number)?
        };
        words.push(word)?;
    }
    Ok(words)
}

/// The values of the places of a design in a cycle, of which those below a number are freed.
pub(super) fn chosen_of(alloc: Global, design: &Design, free: usize) -> Result<Chosen, Fail> {
    let mut freed = Vec::new(alloc);
    let mut words = Vec::new(alloc);
    for (p, place) in design.places.iter().enumerate() {
        freed.push(p < free)?;
        words.push(bits(place.width, 1)?)?;
    }
    Ok(Chosen { freed, words })
}

/// The words of some nodes.
pub(super) fn words_at(alloc: Global, out: &[Bits], numbers: &[u32]) -> Result<Vec<Bits>, Fail> {
    let mut words = Vec::new(alloc);
    for number in numbers {
        match out.get(*number as usize) {
            Some(word) => words.push(*word)?,
            None => return Err(Fail::new("no such node")),
        }
    }
    Ok(words)
}

/// Appends the values of words.
pub(super) fn add_values(words: &[Bits], values: &mut Vec<u128>) -> Result<(), Fail> {
    for word in words {
        values.push(word.value())?;
    }
    Ok(())
}

/// Gives each node of a net its value in a cycle.
pub(super) fn eval(
    net: &WordNet,
    state: &[Bits],
    samples: &[Bits],
    chosen: &Chosen,
    out: &mut [Bits],
) -> Result<(), Fail> {
    if !are_given(net, state, samples, &chosen.freed, &chosen.words) {
        return Err(Fail::new("the net reads what is not given"));
    }
    if out.len() != net.nodes().len() {
        return Err(Fail::new("no word for a node"));
    }
    eval_into(net, state, samples, &chosen.freed, &chosen.words, out);
    Ok(())
}

/// The values of the outputs in so many cycles, by the net: first all of cycle 0.
pub(super) fn by_net(
    alloc: Global,
    design: &Design,
    net: &WordNet,
    cycles: u32,
    chosen: &Chosen,
) -> Result<Vec<u128>, Fail> {
    let mut values = Vec::new(alloc);
    let mut state = net.start().to_vec(alloc)?;
    let mut out = vec![in alloc; bits(1, 0)?; net.nodes().len()]?;
    for cycle in 0..cycles {
        let samples = samples_of(alloc, design, u128::from(cycle))?;
        eval(net, &state, &samples, chosen, &mut out)?;
        let outputs = words_at(alloc, &out, net.outputs())?;
        add_values(&outputs, &mut values)?;
        state = words_at(alloc, &out, net.next())?;
    }
    Ok(values)
}

/// Appends the values of the outputs.
fn add_outputs(sim: &Sim, design: &Design, values: &mut Vec<u128>) -> Result<(), Fail>
    requires sim { IsSim sim.now }
    requires design { (held_by sim.now).design ≡ design.now }
{
    for output in &design.outputs {
        if *output as usize >= design.signals.len() {
            return Err(Fail::new("no such output"));
        }
        values.push(sim.value(*output).value())?;
    }
    Ok(())
}

/// Makes one step, and appends the values of the outputs.
pub(super) fn step(
    sim: &mut Sim,
    design: &Design,
    samples: &[Bits],
    chosen: &Chosen,
    values: &mut Vec<u128>,
) -> Result<(), Fail>
    requires sim { IsSim sim.old }
    requires design { (held_by sim.old).design ≡ design.now }
    ensures sim { IsSim sim.new }
    ensures design { (held_by sim.new).design ≡ design.now }
{
    if !samples_fit(&design.signals, &design.inputs, samples) {
        return Err(Fail::new("the samples do not fit"));
    }
    if chosen.freed.len() != design.places.len() || chosen.words.len() != design.places.len() {
        return Err(Fail::new("the values do not fit"));
    }
    sim.step(samples, &chosen.freed, &chosen.words);
    add_outputs(sim, design, values)
}

/// The values of the outputs in so many cycles, by the simulator: first all of cycle 0.
pub(super) fn by_simulator(
    alloc: Global,
    design: &Design,
    order: &Order,
    cycles: u32,
    chosen: &Chosen,
) -> Result<Vec<u128>, Fail> {
    if !can_simulate(design, order) {
        return Err(Fail::new("the design does not fit"));
    }
    let mut sim = Sim::new(alloc, design, order)?;
    let mut values = Vec::new(alloc);
    for cycle in 0..cycles {
        let samples = samples_of(alloc, design, u128::from(cycle))?;
        step(&mut sim, design, &samples, chosen, &mut values)?;
    }
    Ok(values)
}
