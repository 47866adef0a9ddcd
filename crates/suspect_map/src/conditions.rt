ghost use Rattle.std.specs.Prelude.{codes};
ghost use Rattle.suspect_map.specs.Groups.{groups_of};
ghost use Rattle.suspect_map.specs.Conditions.{condition_key, conditions};

use crate::granularity::Granularity;
use crate::group::Groups;
use crate::grouping::Grain;
use crate::label::Label;
use crate::numbered::Numbered;
use design_core::{Place, PlaceKind};
use loc_base::NoMemory;
use std::alloc::Global;

/// A suspect for each condition of the text, of an `if` or the subject of a `case`, with all its copies. It is called `cond`, and
/// its label is the module's name.
#[derive(Clone, Copy, Drop)]
pub struct Conditions;

impl Numbered for Conditions {
    ghost number = { λ place. condition_key place place.kind };

    /// The number of the first token of a condition.
    fn number_of(place: &Place) -> Option<u32> {
        match place.kind {
            PlaceKind::Cond => Some(place.site),
            PlaceKind::Assign
            | PlaceKind::Step
            | PlaceKind::Gate
            | PlaceKind::PortOut
            | PlaceKind::And
            | PlaceKind::PortIn => None,
        }
    }
}

impl Granularity for Conditions {
    ghost called = { λ _. codes "cond" };

    ghost lists = { λ _ places. groups_of conditions (codes "cond") places };

    fn name(&self) -> &str {
        "cond"
    }

    fn groups(&self, alloc: Global, places: &[Place]) -> Result<Groups, NoMemory> {
        let grain = Grain {
            kind: "cond",
            label: Label::Module,
            places,
        };
        grain.groups_by_number::<Conditions>(alloc)
    }
}
