ghost use Rattle.std.specs.Prelude.{codes};
ghost use Rattle.suspect_map.specs.Groups.{groups_of};
ghost use Rattle.suspect_map.specs.Blocks.{block_key, blocks};

use crate::granularity::Granularity;
use crate::group::Groups;
use crate::grouping::Grain;
use crate::label::Label;
use crate::numbered::Numbered;
use design_core::{Place, PlaceKind};
use loc_base::NoMemory;
use std::alloc::Global;

/// A suspect for each always block of the text, with all assignments in all its copies. It is called `block`, and its label
/// is the module's name.
#[derive(Clone, Copy, Drop)]
pub struct Blocks;

impl Numbered for Blocks {
    ghost number = { λ place. block_key place place.kind };

    /// The number of the first token of the always block of a procedural assignment.
    fn number_of(place: &Place) -> Option<u32> {
        match place.kind {
            PlaceKind::Step => Some(place.home),
            PlaceKind::Assign
            | PlaceKind::Gate
            | PlaceKind::PortOut
            | PlaceKind::And
            | PlaceKind::Cond
            | PlaceKind::PortIn => None,
        }
    }
}

impl Granularity for Blocks {
    ghost called = { λ _. codes "block" };

    ghost lists = { λ _ places. groups_of blocks (codes "block") places };

    fn name(&self) -> &str {
        "block"
    }

    fn groups(&self, alloc: Global, places: &[Place]) -> Result<Groups, NoMemory> {
        let grain = Grain {
            kind: "block",
            label: Label::Module,
            places,
        };
        grain.groups_by_number::<Blocks>(alloc)
    }
}
