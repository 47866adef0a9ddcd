//! The ports of instances by their signals (IEEE 1364-2005, 12.3).
ghost use Rattle.std.specs.Prelude.{◌≡◌, map, IfOk};
ghost use Rattle.v_hierarchy.specs.Names.{bounds_of};
ghost use Rattle.v_hierarchy.specs.Stands.{IsRange};
ghost use Rattle.v_hierarchy.specs.Views.{port_of, instance_of, instances_of};
ghost use Rattle.v_binding.specs.Assignments.{number_of};
ghost use Rattle.v_binding.specs.Signals.{is_input};
ghost use Rattle.v_binding.specs.Connections.{socket, sockets};
ghost use Rattle.v_binding.specs.Binding.{all_sockets};
ghost use Rattle.v_binding.specs.Held.{known_of};
ghost use Rattle.v_binding.specs.Seen.{names_in};
ghost use Rattle.v_binding.specs.Standing.{PortsStand, InstancesStand};
ghost use Rattle.bind_scopes.specs.Views.{scope_of, socket_of};

use crate::{Scope, Socket};
use loc_base::{Items, NoMemory};
use std::alloc::Global;
use v_binding::{Known, Names, Use};
use v_hierarchy::{Instance, Instances, Port};
use v_sizes::Meaning;
use v_syntax::Direction;

/// Whether a port is an input.
pub fn is_input(direction: Option<Direction>) -> bool
    ensures { result ≡ is_input direction }
{
    match direction {
        Some(Direction::Input) => true,
        Some(Direction::Output) | None => false,
    }
}

/// The number of the signal that a name stands for; 0 where it stands for none.
fn number_of(own: Option<Use>) -> u32
    ensures { result ≡ number_of own }
{
    match own {
        Some(Use::Stands(Meaning::Signal { signal, .. })) => signal,
        _ => 0,
    }
}

/// The names of a scope, of which the first of each is seen.
#[tactic(auto, using(crate::proofs::NamesBack::names_back))]
fn names_of<'t>(alloc: Global, list: &[Known<'t>]) -> Result<Names<'t>, NoMemory>
    ensures { IfOk result (λ names. names_in names ≡ map known_of list.now) }
{
    let mut names = Names::new(alloc);
    for back in 0..list.len() {
        names.push(list[list.len() - 1 - back])?;
    }
    Ok(names)
}

/// A port by its signal.
fn socket<'t>(names: &Names<'t>, port: &Port<'t>) -> Socket<'t>
    requires { IsRange (bounds_of port.now.signal) }
    ensures { socket_of result ≡ socket (names_in names.now) (port_of port.now) }
{
    Socket {
        name: &port.name.name,
        input: is_input(port.signal.direction),
        signal: number_of(names.find(&port.name.name)),
        width: port.signal.range().width(),
        signed: port.signal.signed,
    }
}

/// Ports by their signals, among the names of their instance's scope.
fn sockets_among<'t>(
    alloc: Global,
    names: &Names<'t>,
    ports: &[Port<'t>],
) -> Result<Items<Socket<'t>>, NoMemory>
    requires { PortsStand (map port_of ports.now) }
    ensures { IfOk result (λ list. map socket_of list ≡ map (socket (names_in names.now)) (map port_of ports.now)) }
{
    let mut list = Items::new(alloc);
    for port in ports {
        list.push(socket(names, port))?;
    }
    Ok(list)
}

/// The ports of an instance by their signals.
fn sockets<'t>(
    alloc: Global,
    instance: &Instance<'t>,
    scope: &Scope<'t>,
) -> Result<Items<Socket<'t>>, NoMemory>
    requires { PortsStand (map port_of instance.now.ports) }
    ensures { IfOk result (λ list. map socket_of list ≡ sockets (instance_of instance.now) (scope_of scope.now)) }
{
    let names = names_of(alloc, scope.names.as_slice())?;
    sockets_among(alloc, &names, instance.ports.as_slice())
}

/// The ports of each instance by their signals.
pub fn all_sockets<'t>(
    alloc: Global,
    instances: &Instances<'t>,
    scopes: &[Scope<'t>],
) -> Result<Items<Items<Socket<'t>>>, NoMemory>
    requires { InstancesStand (instances_of instances.now) }
    ensures { IfOk result (λ lists. map (map socket_of) lists ≡ all_sockets (instances_of instances.now) (map scope_of scopes.now)) }
{
    let list = instances.list.as_slice();
    let mut all = Items::new(alloc);
    for at in 0..list.len().min(scopes.len()) {
        all.push(sockets(alloc, &list[at], &scopes[at])?)?;
    }
    Ok(all)
}
