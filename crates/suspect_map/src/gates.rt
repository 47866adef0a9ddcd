ghost use Rattle.std.specs.Prelude.{codes};
ghost use Rattle.suspect_map.specs.Groups.{groups_of};
ghost use Rattle.suspect_map.specs.Gates.{gate_key, gates};

use crate::granularity::Granularity;
use crate::group::Groups;
use crate::grouping::Grain;
use crate::label::Label;
use crate::numbered::Numbered;
use design_core::{Place, PlaceKind};
use loc_base::NoMemory;
use std::alloc::Global;

/// A suspect for each copy of a gate, with its outputs. It is called `gate`, and its label is the gate's path.
#[derive(Clone, Copy, Drop)]
pub struct Gates;

impl Numbered for Gates {
    ghost number = { λ place. gate_key place place.kind };

    /// The least place of the copy of a gate.
    fn number_of(place: &Place) -> Option<u32> {
        match place.kind {
            PlaceKind::Gate => Some(place.copy),
            PlaceKind::Assign
            | PlaceKind::Step
            | PlaceKind::PortOut
            | PlaceKind::And
            | PlaceKind::Cond
            | PlaceKind::PortIn => None,
        }
    }
}

impl Granularity for Gates {
    ghost called = { λ _. codes "gate" };

    ghost lists = { λ _ places. groups_of gates (codes "gate") places };

    fn name(&self) -> &str {
        "gate"
    }

    fn groups(&self, alloc: Global, places: &[Place]) -> Result<Groups, NoMemory> {
        let grain = Grain {
            kind: "gate",
            label: Label::Path,
            places,
        };
        grain.groups_by_number::<Gates>(alloc)
    }
}
