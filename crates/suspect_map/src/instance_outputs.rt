ghost use Rattle.std.specs.Prelude.{codes};
ghost use Rattle.suspect_map.specs.Groups.{groups_of};
ghost use Rattle.suspect_map.specs.InstanceOutputs.{instance_key, instance_outputs};

use crate::granularity::Granularity;
use crate::group::Groups;
use crate::grouping::Grain;
use crate::label::Label;
use crate::numbered::Numbered;
use design_core::{Place, PlaceKind};
use loc_base::NoMemory;
use std::alloc::Global;

/// A suspect for each module instance, with its output connections. It is called `instance`, and its label is the
/// instance's path.
#[derive(Clone, Copy, Drop)]
pub struct InstanceOutputs;

impl Numbered for InstanceOutputs {
    ghost number = { λ place. instance_key place place.kind };

    /// The least place of the module instance of an output connection.
    fn number_of(place: &Place) -> Option<u32> {
        match place.kind {
            PlaceKind::PortOut => Some(place.copy),
            PlaceKind::Assign
            | PlaceKind::Step
            | PlaceKind::Gate
            | PlaceKind::And
            | PlaceKind::Cond
            | PlaceKind::PortIn => None,
        }
    }
}

impl Granularity for InstanceOutputs {
    ghost called = { λ _. codes "instance" };

    ghost lists = { λ _ places. groups_of instance_outputs (codes "instance") places };

    fn name(&self) -> &str {
        "instance"
    }

    fn groups(&self, alloc: Global, places: &[Place]) -> Result<Groups, NoMemory> {
        let grain = Grain {
            kind: "instance",
            label: Label::Path,
            places,
        };
        grain.groups_by_number::<InstanceOutputs>(alloc)
    }
}
