//! What the instances of a text bind (IEEE 1364-2005, clause 12).
ghost use Rattle.std.specs.Prelude.{◌≡◌, option_map, Ok, IfOk, IfErr};
ghost use Rattle.v_hierarchy.specs.Views.{instances_of};
ghost use Rattle.v_binding.specs.Binding.{binding};
ghost use Rattle.bind_scopes.specs.Refuses.{Refuses};
ghost use Rattle.v_binding.specs.Standing.{InstancesStand};
ghost use Rattle.v_design.specs.Views.{binding_of};

use crate::copies::signals_in;
use crate::top::{is_misnamed, nothing_bound, top_ports};
use crate::walk::{Whole, bound_all};
use bind_clocks::{Bound, Frame};
use bind_scopes::{
    Numbered, all_sockets, all_started, children_numbers, clock_of, inputs_of, outputs_of,
};
use bind_signals::signals_of;
use design_core::Signal;
use loc_base::{Items, Name};
use std::alloc::Global;
use std::mem;
use v_binding::BindErr;
use v_hierarchy::Instances;

/// The lists of a design, and what the rules want to know beside them.
#[derive(Drop)]
pub struct Binding {
    pub signals: Items<Signal>,
    /// The signals with the first words of their arrays and their names in the text, without start values.
    pub numbered: Items<Numbered>,
    pub inputs: Items<u32>,
    pub outputs: Items<u32>,
    /// Whether a clock is named that is no input of one bit.
    pub misnamed: bool,
    pub bound: Bound,
}

/// What the instances bind: all signals first, then the items of each instance, in the order of the instances.
pub fn bind(
    alloc: Global,
    instances: &Instances<'_>,
    clock: Option<&Name>,
) -> Result<Binding, BindErr>
    requires { InstancesStand (instances_of instances.now) }
    ensures ok { IfOk result (λ b. binding (instances_of instances.now) (option_map (λ n. n.now) clock.entry) ≡ Ok (binding_of b)) }
    ensures err { IfErr result (λ e. Refuses (binding (instances_of instances.now) (option_map (λ n. n.now) clock.entry)) e) }
{
    let mut signals = signals_of(alloc, instances)?;
    let ports = all_sockets(alloc, instances, signals.scopes.as_slice())?;
    let children = children_numbers(alloc, instances)?;
    let top = top_ports(ports.as_slice());
    let number = clock_of(clock, top);
    let inputs = inputs_of(alloc, number, top)?;
    let outputs = outputs_of(alloc, top)?;
    let frame = Frame::new(signals_in(alloc, signals.signals.as_slice())?, number);
    let begun = nothing_bound(alloc, signals.signals.len(), top)?;
    let whole = Whole {
        instances: instances.list.as_slice(),
        scopes: signals.scopes.as_slice(),
        ports: ports.as_slice(),
        children: children.as_slice(),
    };
    let bound = match bound_all(alloc, &frame, whole, begun) {
        Ok(bound) => bound,
        Err(fault) => return Err(fault),
    };
    let started = all_started(bound.declared(), bound.initial(), frame.into_signals());
    let numbered = mem::replace(&mut signals.signals, Items::new(alloc));
    Ok(Binding {
        signals: started,
        numbered,
        inputs,
        outputs,
        misnamed: is_misnamed(clock, number),
        bound,
    })
}
