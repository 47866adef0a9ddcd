//! Granularities of the tests' own.
ghost use Rattle.std.specs.Prelude.{◌≡◌, ◌<◌, ◌^◌, length, IfOk, codes, replicate};
ghost use Rattle.loc_base.specs.Name.{IsName};
ghost use Rattle.design_tests.specs.Own.{everything, nobody};

use design_core::Place;
use loc_base::{Items, Name, NoMemory};
use std::alloc::Global;
use suspect_map::{Granularity, Group, Groups};

fn name_of(alloc: Global, text: &str) -> Result<Name, NoMemory>
    requires { IsName text.now }
    ensures { IfOk result (λ name. name ≡ text.now) }
{
    match Name::new(alloc, text.as_bytes())? {
        Some(name) => Ok(name),
        None => unreachable!(),
    }
}

/// One suspect with all places.
#[derive(Drop)]
pub struct Everything;

impl Granularity for Everything {
    ghost called = { λ _. codes "all" };

    ghost lists = { λ _ places. everything places };

    fn name(&self) -> &str {
        "all"
    }

    fn groups(&self, alloc: Global, places: &[Place]) -> Result<Groups, NoMemory> {
        let mut numbers = Items::new(alloc);
        for place in 0..places.len() {
            numbers.push(place as u32)?;
        }
        let mut groups = Items::new(alloc);
        groups.push(Group {
            kind: name_of(alloc, "all")?,
            label: name_of(alloc, "all")?,
            places: numbers,
        })?;
        Ok(groups)
    }
}

/// So many suspects without places. It is called `stmt`, as that of the statements.
#[derive(Drop)]
pub struct Crowd {
    pub count: u32,
}

impl Granularity for Crowd {
    ghost called = { λ _. codes "stmt" };

    ghost lists = { λ it _. replicate it.count (nobody (codes "stmt")) };

    fn name(&self) -> &str {
        "stmt"
    }

    fn groups(&self, alloc: Global, places: &[Place]) -> Result<Groups, NoMemory> {
        let _places = places;
        let mut groups = Items::new(alloc);
        for number in 0..self.count {
            let _number = number;
            groups.push(Group {
                kind: name_of(alloc, "stmt")?,
                label: name_of(alloc, "stmt")?,
                places: Items::new(alloc),
            })?;
        }
        Ok(groups)
    }
}
