ghost use Rattle.std.specs.Prelude.{codes};
ghost use Rattle.suspect_map.specs.Groups.{groups_of};
ghost use Rattle.suspect_map.specs.Statements.{statement_key, statements};

use crate::granularity::Granularity;
use crate::group::Groups;
use crate::grouping::Grain;
use crate::label::Label;
use crate::numbered::Numbered;
use design_core::{Place, PlaceKind};
use loc_base::NoMemory;
use std::alloc::Global;

/// A suspect for each assignment of the text, continuous or procedural, with all its copies. It is called `stmt`, and its
/// label is the module's name.
#[derive(Clone, Copy, Drop)]
pub struct Statements;

impl Numbered for Statements {
    ghost number = { λ place. statement_key place place.kind };

    /// The number of the first token of an assignment.
    fn number_of(place: &Place) -> Option<u32> {
        match place.kind {
            PlaceKind::Assign | PlaceKind::Step => Some(place.site),
            PlaceKind::Gate
            | PlaceKind::PortOut
            | PlaceKind::And
            | PlaceKind::Cond
            | PlaceKind::PortIn => None,
        }
    }
}

impl Granularity for Statements {
    ghost called = { λ _. codes "stmt" };

    ghost lists = { λ _ places. groups_of statements (codes "stmt") places };

    fn name(&self) -> &str {
        "stmt"
    }

    fn groups(&self, alloc: Global, places: &[Place]) -> Result<Groups, NoMemory> {
        let grain = Grain {
            kind: "stmt",
            label: Label::Module,
            places,
        };
        grain.groups_by_number::<Statements>(alloc)
    }
}
