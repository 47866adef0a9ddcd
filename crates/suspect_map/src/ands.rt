ghost use Rattle.std.specs.Prelude.{codes};
ghost use Rattle.suspect_map.specs.Groups.{groups_of};
ghost use Rattle.suspect_map.specs.Ands.{and_key, ands};

use crate::granularity::Granularity;
use crate::group::Groups;
use crate::grouping::Grain;
use crate::label::Label;
use crate::numbered::Numbered;
use design_core::{Place, PlaceKind};
use loc_base::NoMemory;
use std::alloc::Global;

/// A suspect for each AND of an AIGER file. It is called `and`, and its label is the AND's path.
#[derive(Clone, Copy, Drop)]
pub struct Ands;

impl Numbered for Ands {
    ghost number = { λ place. and_key place place.kind };

    /// The line of an AND.
    fn number_of(place: &Place) -> Option<u32> {
        match place.kind {
            PlaceKind::And => Some(place.site),
            PlaceKind::Assign
            | PlaceKind::Step
            | PlaceKind::Gate
            | PlaceKind::PortOut
            | PlaceKind::Cond
            | PlaceKind::PortIn => None,
        }
    }
}

impl Granularity for Ands {
    ghost called = { λ _. codes "and" };

    ghost lists = { λ _ places. groups_of ands (codes "and") places };

    fn name(&self) -> &str {
        "and"
    }

    fn groups(&self, alloc: Global, places: &[Place]) -> Result<Groups, NoMemory> {
        let grain = Grain {
            kind: "and",
            label: Label::Path,
            places,
        };
        grain.groups_by_number::<Ands>(alloc)
    }
}
