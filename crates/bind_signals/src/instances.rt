//! The signals of all instances (IEEE 1364-2005, 12.3 and 12.5).
ghost use Rattle.std.specs.Prelude.{◌≡◌, [], map, option_map, OnOk, IfOk};
ghost use Rattle.v_hierarchy.specs.Names.{bounds_of};
ghost use Rattle.v_hierarchy.specs.Views.{port_of, block_of, instance_of, instances_of};
ghost use Rattle.v_binding.specs.Signals.{with_port, is_top, numbered_instance, signals_of};
ghost use Rattle.v_binding.specs.Steps.{through};
ghost use Rattle.v_binding.specs.Seen.{names_in};
ghost use Rattle.v_binding.specs.Standing.{PortsStand, BlockStands, InstancesStand};
ghost use Rattle.bind_scopes.specs.Views.{numbered_of, whole_of};
ghost use Rattle.bind_signals.specs.Scopings.{scoping_of};
ghost use Rattle.bind_signals.specs.Grounds.{ground_in, prefix_of};

use crate::ground::{Ground, ground_of};
use crate::met::Met;
use crate::numbering::{Declaration, number_copies};
use bind_scopes::Whole;
use loc_base::{Items, Name, NoMemory};
use std::alloc::Global;
use v_hierarchy::{Instance, Instances, Port};

/// The ports of an instance, which are of the top or not.
fn add_ports<'t>(
    ground: &Ground<'_, 't>,
    top: bool,
    ports: &[Port<'t>],
    met: &mut Met<'t>,
) -> Result<(), NoMemory>
    requires { PortsStand (map port_of ports.now) }
    ensures ok { OnOk result (scoping_of met.new ≡ through (with_port top (ground_in ground.now (names_in met.old.seen))) (map port_of ports.now) (scoping_of met.old)) }
    ensures same { OnOk result (names_in met.new.seen ≡ names_in met.old.seen) }
{
    for port in ports {
        let declaration = Declaration {
            name: port.name,
            signal: port.signal,
            top,
        };
        ground.add_signal(declaration, met)?;
    }
    Ok(())
}

/// Whether an instance is the top.
fn is_top(instance: &Instance<'_>) -> bool
    ensures { result ≡ is_top (instance_of instance.now) }
{
    instance.parent.is_none()
}

/// The path of the signals of an instance; the top's are names alone.
fn prefix_of<'a>(instance: &'a Instance<'_>) -> Option<&'a Name>
    ensures { option_map (λ p. p.now) result ≡ prefix_of instance.now }
{
    if is_top(instance) {
        None
    } else {
        Some(&instance.body.path)
    }
}

/// An instance's ports, then what its items declare.
fn number_instance<'t>(instance: &Instance<'t>, met: &mut Met<'t>) -> Result<(), NoMemory>
    requires ports { PortsStand (map port_of instance.now.ports) }
    requires body { BlockStands (block_of instance.now.body) }
    requires none { names_in met.old.seen ≡ [] }
    ensures ok { OnOk result (scoping_of met.new ≡ numbered_instance (instance_of instance.now) (map numbered_of met.old.signals)) }
    ensures none { OnOk result (names_in met.new.seen ≡ []) }
{
    let ports = instance.ports.as_slice();
    let top = is_top(instance);
    let ground = ground_of(met.alloc, prefix_of(instance), ports, &instance.body)?;
    let _before = met.begin(instance.body.names.as_slice())?;
    add_ports(&ground, top, ports, met)?;
    number_copies(&ground, instance.body.copies.as_slice(), met)?;
    met.leave(instance.body.names.len());
    Ok(())
}

/// The scope of each instance, and all signals.
pub fn signals_of<'t>(alloc: Global, instances: &Instances<'t>) -> Result<Whole<'t>, NoMemory>
    requires { InstancesStand (instances_of instances.now) }
    ensures { IfOk result (λ whole. whole_of whole ≡ signals_of (instances_of instances.now)) }
{
    let mut met = Met::new(alloc);
    let mut scopes = Items::new(alloc);
    for instance in instances.list.iter() {
        number_instance(instance, &mut met)?;
        scopes.push(met.take_scope())?;
    }
    let signals = met.into_signals();
    Ok(Whole { scopes, signals })
}
