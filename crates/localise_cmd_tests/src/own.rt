//! A kind of suspects of the tests' own.
ghost use Rattle.std.specs.Prelude.{◌≡◌, IfOk, codes};
ghost use Rattle.loc_base.specs.Name.{IsName};
ghost use Rattle.localise_cmd_tests.specs.Own.{everything};

use design_core::Place;
use loc_base::{Items, Name, NoMemory};
use std::alloc::Global;
use suspect_map::{Granularity, Group, Groups};

fn name_of(alloc: Global, text: &str) -> Result<Name, NoMemory>
    requires { IsName text.now }
    ensures { IfOk result (λ name. name ≡ text.now) }
{
    match Name::new(alloc, text.as_bytes())? {
        Some(name) => Ok(name),
        None => unreachable!(),
    }
}

/// One suspect with all places. It and its label are called `all`.
#[derive(Drop)]
pub struct Everything;

impl Granularity for Everything {
    ghost called = { λ _. codes "all" };

    ghost lists = { λ _ places. everything places };

    fn name(&self) -> &str {
        "all"
    }

    fn groups(&self, alloc: Global, places: &[Place]) -> Result<Groups, NoMemory> {
        let mut numbers = Items::new(alloc);
        for place in 0..places.len() {
            numbers.push(place as u32)?;
        }
        let mut groups = Items::new(alloc);
        groups.push(Group {
            kind: name_of(alloc, "all")?,
            label: name_of(alloc, "all")?,
            places: numbers,
        })?;
        Ok(groups)
    }
}
