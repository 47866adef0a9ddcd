//! Inputs and registers, before anything is computed.
ghost use Rattle.std.specs.Prelude.{◌≡◌, ◌==◌, ◌^◌, ◌<◌, [], ◌∷◌, ◌++◌, length, if◌then◌else◌, IfOk, OnOk};
ghost use Rattle.std.specs.List.{All};
ghost use Rattle.design_core.specs.Valuation.{width_at};
ghost use Rattle.word_net.specs.Build.{made};
ghost use Rattle.synth_parts.specs.Store.{nodes_made};
ghost use Rattle.v_synth.specs.Clocked.{begun_made, first_made, inputs_made, masked_made, register_mask, state_made};
ghost use Rattle.v_synth.specs.Net.{states_of};
ghost use Rattle.v_synth.specs.Rows.{ArePlaces, IsRow, place_from};

use crate::rows::Blocks;
use design_core::{Design, Signal};
use loc_base::{Items, NoMemory};
use std::alloc::Global;
use synth_parts::{Nodes, push, unsigned};
use word_net::Operation;

/// A word of a signal of which bits are registers.
#[derive(Clone, Copy)]
pub(crate) struct Register {
    pub signal: u32,
    pub mask: u128,
}

/// The node of each signal before anything is computed, and the signals that have a state.
pub(crate) struct First {
    pub map: Items<u32>,
    pub states: Items<u32>,
}

impl Drop for First {
    fn drop(self) {
        let First { map: _, states: _ } = self;
    }
}

impl First {
    /// Adds a signal: its node, and its number where it has a state.
    fn add(&mut self, node: u32, register: Register) -> Result<(), NoMemory>
        ensures map { OnOk result (self.new.map ≡ self.old.map ++ node ∷ []) }
        ensures states { OnOk result (self.new.states ≡ (if register.mask == 0 then self.old.states else self.old.states ++ register.signal ∷ [])) }
    {
        self.map.push(node)?;
        if register.mask != 0 {
            self.states.push(register.signal)?;
        }
        Ok(())
    }
}

/// The width of a signal.
#[tactic(auto, using(synth_parts::proofs::Scenes::signals_at))]
fn width(signals: &[Signal], s: u32) -> u8
    requires { s < length signals.now }
    ensures { result ≡ width_at signals.now s }
{
    signals[s as usize].width
}

/// The inputs, in order.
#[tactic(auto, using(crate::proofs::BeginSteps::inputs_steps))]
fn inputs(design: &Design, nodes: &mut Nodes) -> Result<(), NoMemory>
    requires few { length design.now.inputs.items < 2 ^ 32 }
    requires within { All (λ s. s < length design.now.signals.items) design.now.inputs.items }
    ensures { OnOk result (nodes.new ≡ inputs_made design.now nodes.old 0 design.now.inputs.items) }
{
    for place in 0..design.inputs.len() {
        let input = design.inputs[place];
        let width = width(&design.signals, input);
        push(nodes, width, Operation::Input(place as u32))?;
    }
    Ok(())
}

/// The bits of a word that are registers, all others 0.
#[tactic(auto, unfolding(crate::specs::Clocked::masked_made))]
pub(crate) fn masked(
    design: &Design,
    nodes: &mut Nodes,
    register: Register,
    word: u32,
) -> Result<u32, NoMemory>
    requires within { register.signal < length design.now.signals.items }
    requires mask { register.mask ≡ register_mask design.now register.signal }
    ensures { IfOk result (λ n. made nodes.new n ≡ masked_made design.now nodes.old register.signal word) }
{
    let width = width(&design.signals, register.signal);
    let none = push(nodes, width, Operation::Const(0))?;
    let blend = Operation::Blend {
        mask: register.mask,
        one: unsigned(word, width),
        other: unsigned(none, width),
    };
    push(nodes, width, blend)
}

/// The state of a number, of which the bits of the signal that are registers are read.
#[tactic(auto, unfolding(crate::specs::Clocked::state_made))]
fn state(
    design: &Design,
    nodes: &mut Nodes,
    register: Register,
    number: u32,
) -> Result<u32, NoMemory>
    requires within { register.signal < length design.now.signals.items }
    requires mask { register.mask ≡ register_mask design.now register.signal }
    ensures { IfOk result (λ n. made nodes.new n ≡ state_made design.now nodes.old register.signal number) }
{
    let width = width(&design.signals, register.signal);
    let word = push(nodes, width, Operation::State(number))?;
    masked(design, nodes, register, word)
}

/// For each of so many signals its number among the inputs.
fn places(alloc: Global, inputs: &[u32], count: usize) -> Result<Items<Option<u32>>, NoMemory>
    requires few { length inputs.now < 2 ^ 32 }
    requires within { All (λ s. s < count) inputs.now }
    ensures { IfOk result (ArePlaces 0 inputs.now count) }
{
    let mut places = Items::from_vec(vec![in alloc; None; count]?);
    let mut left = inputs.len();
    while left > 0 {
        left -= 1;
        places.set(inputs[left] as usize, Some(left as u32));
    }
    Ok(places)
}

impl Blocks<'_> {
    /// A signal before anything is computed: its input, its state, or 0.
    #[tactic(auto, using(crate::proofs::FirstSteps::signal_steps))]
    fn signal(
        &self,
        nodes: &mut Nodes,
        place: Option<u32>,
        register: Register,
        number: u32,
    ) -> Result<u32, NoMemory>
        requires within { register.signal < length self.now.design.now.signals.items }
        requires mask { register.mask ≡ register_mask self.now.design.now register.signal }
        requires place { place ≡ place_from 0 self.now.design.now.inputs.items register.signal }
        ensures { IfOk result (λ n. made nodes.new n ≡ first_made self.now.design.now nodes.old register.signal number) }
    {
        if let Some(input) = place {
            return Ok(input);
        }
        if register.mask != 0 {
            return state(self.design, nodes, register, number);
        }
        let width = width(&self.design.signals, register.signal);
        push(nodes, width, Operation::Const(0))
    }

    /// The inputs, and then the signals before anything is computed.
    #[tactic(auto, using(crate::proofs::FirstSteps::begin_steps))]
    pub(crate) fn begin(&self, nodes: &mut Nodes) -> Result<First, NoMemory>
        requires few { length self.now.design.now.signals.items < 2 ^ 32 }
        requires inputs { length self.now.design.now.inputs.items < 2 ^ 32 }
        requires within { All (λ s. s < length self.now.design.now.signals.items) self.now.design.now.inputs.items }
        requires registers { IsRow (register_mask self.now.design.now) (length self.now.design.now.signals.items) self.now.registers.now }
        requires none { nodes.old ≡ [] }
        ensures made { IfOk result (λ first. nodes_made nodes.new first.map ≡ begun_made self.now.design.now) }
        ensures each { IfOk result (λ first. length first.map ≡ length self.now.design.now.signals.items) }
        ensures states { IfOk result (λ first. first.states ≡ states_of self.now.design.now) }
    {
        let count = self.design.signals.len();
        let places = places(self.alloc, self.design.inputs.as_slice(), count)?;
        inputs(self.design, nodes)?;
        let mut first = First {
            map: Items::new(self.alloc),
            states: Items::new(self.alloc),
        };
        for s in 0..count {
            let register = Register {
                signal: s as u32,
                mask: self.registers[s],
            };
            let state = first.states.len() as u32;
            let node = self.signal(nodes, places[s], register, state)?;
            first.add(node, register)?;
        }
        Ok(first)
    }
}
