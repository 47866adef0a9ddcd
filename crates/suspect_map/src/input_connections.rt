ghost use Rattle.std.specs.Prelude.{codes};
ghost use Rattle.suspect_map.specs.Groups.{groups_of};
ghost use Rattle.suspect_map.specs.InputConnections.{input_key, input_connections};

use crate::granularity::Granularity;
use crate::group::Groups;
use crate::grouping::Grain;
use crate::label::Label;
use crate::numbered::Numbered;
use design_core::{Place, PlaceKind};
use loc_base::NoMemory;
use std::alloc::Global;

/// A suspect for each connection of an input port in the text, with all its copies. It is called `conn`, and its label is the
/// module's name.
#[derive(Clone, Copy, Drop)]
pub struct InputConnections;

impl Numbered for InputConnections {
    ghost number = { λ place. input_key place place.kind };

    /// The number of the first token of a connection.
    fn number_of(place: &Place) -> Option<u32> {
        match place.kind {
            PlaceKind::PortIn => Some(place.site),
            PlaceKind::Assign
            | PlaceKind::Step
            | PlaceKind::Gate
            | PlaceKind::PortOut
            | PlaceKind::And
            | PlaceKind::Cond => None,
        }
    }
}

impl Granularity for InputConnections {
    ghost called = { λ _. codes "conn" };

    ghost lists = { λ _ places. groups_of input_connections (codes "conn") places };

    fn name(&self) -> &str {
        "conn"
    }

    fn groups(&self, alloc: Global, places: &[Place]) -> Result<Groups, NoMemory> {
        let grain = Grain {
            kind: "conn",
            label: Label::Module,
            places,
        };
        grain.groups_by_number::<InputConnections>(alloc)
    }
}
