//! An instance of a module: the start values of its header's ports, then its items (IEEE 1364-2005, clause 12).
ghost use Rattle.std.specs.Prelude.{◌≡◌, map, Ok, OnOk, IfOk, IfErr};
ghost use Rattle.v_hierarchy.specs.Views.{port_of, block_of, instance_of};
ghost use Rattle.v_binding.specs.Steps.{each};
ghost use Rattle.v_binding.specs.Binding.{port_start, instance_items};
ghost use Rattle.v_binding.specs.Seen.{names_in};
ghost use Rattle.bind_scopes.specs.Refuses.{Refuses};
ghost use Rattle.bind_scopes.specs.Views.{scope_of};
ghost use Rattle.v_binding.specs.Standing.{BlockStands};
ghost use Rattle.v_design.specs.Children.{children_of};

use crate::children::Children;
use crate::item_walk::{Walk, copies};
use crate::own::enter;
use bind_clocks::{Bound, Frame};
use bind_items::{Ground, start_at};
use bind_scopes::Scope;
use std::alloc::Global;
use v_binding::{BindErr, Names};
use v_hierarchy::{Instance, Port};

/// The start value that a header gives to a port.
fn port_start(names: &Names<'_>, port: Port<'_>, bound: &mut Bound) -> Result<(), BindErr>
    ensures ok { OnOk result (port_start (names_in names.now) (port_of port.entry) bound.old ≡ Ok bound.new) }
    ensures err { IfErr result (λ e. Refuses (port_start (names_in names.now) (port_of port.entry) bound.old) e) }
{
    match port.start {
        None => Ok(()),
        Some(value) => start_at(names, &port.name.name, value, bound),
    }
}

/// The start values that a header gives to its ports.
fn port_starts(names: &Names<'_>, ports: &[Port<'_>], bound: &mut Bound) -> Result<(), BindErr>
    ensures ok { OnOk result (each (port_start (names_in names.now)) (map port_of ports.now) bound.old ≡ Ok bound.new) }
    ensures err { IfErr result (λ e. Refuses (each (port_start (names_in names.now)) (map port_of ports.now) bound.old) e) }
{
    for port in ports {
        port_start(names, *port, bound)?;
    }
    Ok(())
}

/// An instance in its design: the signals and the clock of the design, its names, and the ports of its children.
#[derive(Clone, Copy)]
pub struct Scoped<'t, 'a> {
    pub frame: &'a Frame,
    pub instance: &'a Instance<'t>,
    pub scope: &'a Scope<'t>,
    pub children: Children<'t, 'a>,
}

/// The start values of an instance's ports, then what its items add to what is bound.
#[tactic(auto, using(bind_scopes::proofs::CopiedViews::copied_views, crate::proofs::ScopeViews::scope_views))]
pub fn instance_items<'t>(
    alloc: Global,
    own: Scoped<'t, '_>,
    bound: Bound,
) -> Result<Bound, BindErr>
    requires { BlockStands (block_of own.instance.now.body) }
    ensures ok { IfOk result (λ b. instance_items own.entry.frame.now (instance_of own.entry.instance.now) (scope_of own.entry.scope.now) (children_of own.entry.children) bound ≡ Ok b) }
    ensures err { IfErr result (λ e. Refuses (instance_items own.entry.frame.now (instance_of own.entry.instance.now) (scope_of own.entry.scope.now) (children_of own.entry.children) bound) e) }
{
    let mut names = Names::new(alloc);
    let mut bound = bound;
    enter(&mut names, own.scope.names.as_slice())?;
    port_starts(&names, own.instance.ports.as_slice(), &mut bound)?;
    let mut walk = Walk {
        names,
        children: own.children,
        turn: 0,
        bound,
    };
    let ground = Ground {
        frame: own.frame,
        module: &own.instance.module.name.name,
        path: &own.instance.path,
    };
    let made = own.instance.body.copies.as_slice();
    copies(made, ground, &mut walk, own.scope.inside.as_slice())?;
    Ok(walk.into_bound())
}
