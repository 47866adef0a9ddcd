//! A design of what instances bind, before its rules.
ghost use Rattle.std.specs.Prelude.{◌≡◌, Ok, option_map, IfOk, IfErr};
ghost use Rattle.v_hierarchy.specs.Views.{instances_of};
ghost use Rattle.v_binding.specs.Binding.{binding};
ghost use Rattle.bind_scopes.specs.Refuses.{Refuses};
ghost use Rattle.v_binding.specs.Standing.{InstancesStand};
ghost use Rattle.bind_rules.specs.Views.{beside_of};
ghost use Rattle.v_design.specs.Made.{IsMade, listed_beside};

use crate::beside::{homes_of, spans_of};
use crate::{Binding, bind};
use bind_clocks::BoundLists;
use bind_rules::{Beside, clock_fault};
use design_core::Design;
use loc_base::{Items, Name, Span};
use std::alloc::Global;
use v_binding::{BindErr, Initial};
use v_hierarchy::Instances;

/// A design, with what its rules want to know beside it.
#[derive(Drop)]
pub(crate) struct Listed {
    pub design: Design,
    pub homes: Items<u32>,
    pub spans: Items<Span>,
    pub initial: Items<Initial>,
    pub clock_fault: Option<Span>,
}

impl Listed {
    /// What the rules want to know.
    pub(crate) fn beside(&self) -> Beside<'_>
        ensures { beside_of result ≡ listed_beside self.now }
    {
        Beside {
            homes: self.homes.as_slice(),
            spans: self.spans.as_slice(),
            initial: self.initial.as_slice(),
            clock_fault: self.clock_fault,
        }
    }
}

/// The design of what the instances bind.
pub(crate) fn design_of(
    alloc: Global,
    instances: &Instances<'_>,
    clock: Option<&Name>,
) -> Result<Listed, BindErr>
    requires { InstancesStand (instances_of instances.now) }
    ensures ok { IfOk result (IsMade (instances_of instances.now) (option_map (λ n. n.now) clock.entry)) }
    ensures err { IfErr result (λ e. Refuses (binding (instances_of instances.now) (option_map (λ n. n.now) clock.entry)) e) }
{
    let Binding {
        signals,
        numbered,
        inputs,
        outputs,
        misnamed,
        bound,
    } = bind(alloc, instances, clock)?;
    let homes = homes_of(alloc, numbered.as_slice())?;
    let spans = spans_of(alloc, numbered.as_slice())?;
    let BoundLists {
        places,
        drivers,
        clocked,
        declared: _,
        initial,
        misclocked,
        clock_read,
    } = bound.into_lists();
    Ok(Listed {
        design: Design {
            signals: signals.into_vec(),
            drivers: drivers.into_vec(),
            clocked: clocked.into_vec(),
            places: places.into_vec(),
            inputs: inputs.into_vec(),
            outputs: outputs.into_vec(),
        },
        homes,
        spans,
        initial,
        clock_fault: clock_fault(misnamed, misclocked, clock_read),
    })
}
