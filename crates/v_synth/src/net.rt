//! The net of a design.
ghost use Rattle.std.specs.Prelude.{◌≡◌, ◌≤◌, ◌<◌, ◌^◌, [], length, map, get_or, IfOk, IsTrue, OnOk};
ghost use Rattle.std.specs.List.{All, list_all};
ghost use Rattle.loc_base.specs.Bits.{value_of, width_of};
ghost use Rattle.design_core.specs.Valuation.{number, width_at};
ghost use Rattle.design_core.specs.Cycle.{Cycle};
ghost use Rattle.design_core.specs.DrivenOnce.{IsDrivenOnce};
ghost use Rattle.design_core.specs.Reads.{IsOrder};
ghost use Rattle.design_core.specs.Run.{start_state};
ghost use Rattle.design_core.specs.WellFormed.{IsWellFormed, signal_fits};
ghost use Rattle.word_net.specs.Nets.{IsNet};
ghost use Rattle.synth_parts.specs.Store.{nodes_made};
ghost use Rattle.v_synth.specs.Clocked.{register_mask};
ghost use Rattle.v_synth.specs.Matches.{IsNetOf, MeansCycle, OneNet};
ghost use Rattle.v_synth.specs.Net.{net_of, nexts_made};
ghost use Rattle.v_synth.specs.Rows.{IsRow};

use crate::begin::{Register, masked};
use crate::rows::{Blocks, registers};
use design_core::Design;
use design_core::types::Order;
use loc_base::{Bits, Items, NoMemory};
use std::alloc::Global;
use synth_parts::{Left, Nodes};
use word_net::WordNet;

/// What a net is made of.
struct Parts {
    nodes: Nodes,
    outputs: Items<u32>,
    next: Items<u32>,
    start: Items<Bits>,
}

impl Drop for Parts {
    fn drop(self) {
        let Parts {
            nodes: _,
            outputs: _,
            next: _,
            start: _,
        } = self;
    }
}

impl Parts {
    /// The net of the parts.
    fn into_net(self) -> WordNet
        requires { IsNet (record { nodes = self.nodes; outputs = self.outputs; next = self.next; start = self.start }) }
        ensures { result ≡ record { nodes = self.nodes; outputs = self.outputs; next = self.next; start = self.start } }
    {
        let Parts {
            nodes,
            outputs,
            next,
            start,
        } = self;
        WordNet::new(
            nodes.into_vec(),
            outputs.into_vec(),
            next.into_vec(),
            start.into_vec(),
        )
    }
}

impl Blocks<'_> {
    /// The next states of signals: bits that are no registers have 0.
    #[tactic(auto, using(crate::proofs::NetSteps::nexts_steps))]
    fn nexts(&self, nodes: &mut Nodes, left: &[u32], states: &[u32]) -> Result<Items<u32>, NoMemory>
        requires registers { IsRow (register_mask self.now.design.now) (length self.now.design.now.signals.items) self.now.registers.now }
        requires each { length left.now ≡ length self.now.design.now.signals.items }
        requires within { All (λ s. s < length self.now.design.now.signals.items) states.now }
        ensures { IfOk result (λ next. nodes_made nodes.new next ≡ nexts_made self.now.design.now left.now nodes.old [] states.now) }
    {
        let mut next = Items::new(self.alloc);
        for k in 0..states.len() {
            let signal = states[k];
            let register = Register {
                signal,
                mask: self.registers[signal as usize],
            };
            let node = masked(self.design, nodes, register, left[signal as usize])?;
            next.push(node)?;
        }
        Ok(next)
    }

    /// The nodes of the outputs.
    #[tactic(auto, using(crate::proofs::NetSteps::outputs_steps))]
    fn outputs(&self, values: &[u32]) -> Result<Items<u32>, NoMemory>
        requires { All (λ s. s < length values.now) self.now.design.now.outputs.items }
        ensures { IfOk result (λ outputs. outputs ≡ map (λ s. get_or values.now s 0) self.now.design.now.outputs.items) }
    {
        let mut outputs = Items::new(self.alloc);
        for k in 0..self.design.outputs.len() {
            let signal = self.design.outputs[k] as usize;
            outputs.push(values[signal])?;
        }
        Ok(outputs)
    }

    /// The word of a signal before the first cycle: the start value at the bits that are registers, 0 at the others.
    #[tactic(auto, using(crate::proofs::NetSteps::start_steps))]
    fn start_of(&self, signal: usize) -> Bits
        requires fits { IsTrue (list_all signal_fits self.now.design.now.signals.items) }
        requires registers { IsRow (register_mask self.now.design.now) (length self.now.design.now.signals.items) self.now.registers.now }
        requires within { signal < length self.now.design.now.signals.items }
        ensures width { width_of result ≡ width_at self.now.design.now.signals.items signal }
        ensures value { value_of result ≡ number (width_at self.now.design.now.signals.items signal) (start_state self.now.design.now signal) }
    {
        let declared = &self.design.signals[signal];
        let bits = self.registers[signal] & declared.start.value();
        Bits::new(declared.width, bits).unwrap()
    }

    /// The states before the first cycle.
    #[tactic(auto, using(crate::proofs::NetSteps::starts_steps))]
    fn starts(&self, states: &[u32]) -> Result<Items<Bits>, NoMemory>
        requires fits { IsTrue (list_all signal_fits self.now.design.now.signals.items) }
        requires registers { IsRow (register_mask self.now.design.now) (length self.now.design.now.signals.items) self.now.registers.now }
        requires within { All (λ s. s < length self.now.design.now.signals.items) states.now }
        ensures widths { IfOk result (λ start. map width_of start ≡ map (width_at self.now.design.now.signals.items) states.now) }
        ensures values { IfOk result (λ start. map value_of start ≡ map (λ s. number (width_at self.now.design.now.signals.items s) (start_state self.now.design.now s)) states.now) }
    {
        let mut start = Items::new(self.alloc);
        for k in 0..states.len() {
            let signal = states[k] as usize;
            start.push(self.start_of(signal))?;
        }
        Ok(start)
    }

    /// What the net of the design is made of.
    #[tactic(auto, using(crate::proofs::NetSteps::parts_steps))]
    fn parts(&self, order: &Order) -> Result<Parts, NoMemory>
        requires well_formed { IsWellFormed self.now.design.now }
        requires ordered { IsOrder self.now.design.now order.now }
        requires few { length self.now.design.now.signals.items < 2 ^ 32 }
        requires registers { IsRow (register_mask self.now.design.now) (length self.now.design.now.signals.items) self.now.registers.now }
        ensures { IfOk result (λ parts. IsNetOf self.now.design.now order.now (record { nodes = parts.nodes; outputs = parts.outputs; next = parts.next; start = parts.start })) }
    {
        let mut nodes = Items::new(self.alloc);
        let first = self.begin(&mut nodes)?;
        let mut map = Items::copy_of(self.alloc, first.map.as_slice())?;
        self.resets(&mut nodes, &mut map, first.map.as_slice())?;
        let signals = Left {
            alloc: self.alloc,
            signals: self.design.signals.as_slice(),
        };
        let drivers = self.design.drivers.as_slice();
        signals.drivers(&mut nodes, &mut map, drivers, order.as_slice())?;
        let mut left = Items::copy_of(self.alloc, map.as_slice())?;
        self.bodies(&mut nodes, &mut left, map.as_slice())?;
        let next = self.nexts(&mut nodes, left.as_slice(), first.states.as_slice())?;
        Ok(Parts {
            outputs: self.outputs(map.as_slice())?,
            next,
            start: self.starts(first.states.as_slice())?,
            nodes,
        })
    }
}

/// The net of a design whose drivers are carried out in an order. In each cycle its outputs and next states are those of the
/// design, and its states before the first cycle are the registers' start values.
pub fn word_net(alloc: Global, design: &Design, order: &Order) -> Result<WordNet, NoMemory>
    requires well_formed { IsWellFormed design.now }
    requires once { IsDrivenOnce design.now }
    requires ordered { IsOrder design.now order.now }
    requires few { length design.now.signals.items ≤ 1048576 }
    ensures net { IfOk result (IsNetOf design.now order.now) }
    ensures cycles { IfOk result (λ net. (of : OneNet) → of.design ≡ design.now → of.order ≡ order.now
        → Cycle of.design of.samples of.state of.choice of.values of.next → MeansCycle of net) }
{
    let registers = registers(alloc, design)?;
    let blocks = Blocks {
        alloc,
        design,
        registers: registers.as_slice(),
    };
    Ok(blocks.parts(order)?.into_net())
}
