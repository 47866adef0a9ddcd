//! The items of all instances, in the order of the instances (IEEE 1364-2005, clause 12).
ghost use Rattle.std.specs.Prelude.{◌≡◌, ℕ, ◌<◌, length, map, slice_get, Some, Ok, IfOk, IfErr};
ghost use Rattle.v_hierarchy.specs.Views.{instance_of};
ghost use Rattle.v_binding.specs.Binding.{all_sockets, bound_from};
ghost use Rattle.bind_scopes.specs.Refuses.{Refuses};
ghost use Rattle.v_binding.specs.Standing.{InstancesStand};
ghost use Rattle.bind_scopes.specs.Views.{scope_of, socket_of};
ghost use Rattle.bind_scopes.specs.Children.{numbers_from};
ghost use Rattle.v_design.specs.Whole.{AreAll};

use crate::children::Children;
use crate::instance::{Scoped, instance_items};
use bind_clocks::{Bound, Frame};
use bind_scopes::{Scope, Socket};
use loc_base::Items;
use std::alloc::Global;
use v_binding::BindErr;
use v_hierarchy::Instance;

/// All instances with their scopes, their ports and the numbers of their children.
#[derive(Clone, Copy)]
pub(crate) struct Whole<'t, 'a> {
    pub(crate) instances: &'a [Instance<'t>],
    pub(crate) scopes: &'a [Scope<'t>],
    pub(crate) ports: &'a [Items<Socket<'t>>],
    pub(crate) children: &'a [Items<usize>],
}

/// What the items of all instances bind, in their order.
pub(crate) fn bound_all(
    alloc: Global,
    frame: &Frame,
    whole: Whole<'_, '_>,
    bound: Bound,
) -> Result<Bound, BindErr>
    requires stand { InstancesStand (map instance_of whole.instances.now) }
    requires all { AreAll whole }
    ensures ok { IfOk result (λ b. bound_from frame.now (map instance_of whole.entry.instances.now) (map (map socket_of) whole.entry.ports.now) 0 (map instance_of whole.entry.instances.now) (map scope_of whole.entry.scopes.now) bound ≡ Ok b) }
    ensures err { IfErr result (λ e. Refuses (bound_from frame.now (map instance_of whole.entry.instances.now) (map (map socket_of) whole.entry.ports.now) 0 (map instance_of whole.entry.instances.now) (map scope_of whole.entry.scopes.now) bound) e) }
{
    let Whole {
        instances,
        scopes,
        ports,
        children,
    } = whole;
    let mut bound = bound;
    for at in 0..instances.len() {
        let own = Scoped {
            frame,
            instance: &instances[at],
            scope: &scopes[at],
            children: Children {
                ports,
                numbers: children[at].as_slice(),
            },
        };
        bound = match instance_items(alloc, own, bound) {
            Ok(next) => next,
            Err(fault) => return Err(fault),
        };
    }
    Ok(bound)
}
