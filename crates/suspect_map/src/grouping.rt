//! From the least place of each suspect to the suspects.
ghost use Rattle.std.specs.Prelude.{◌≡◌, ◌<◌, ◌^◌, length, IfOk};
ghost use Rattle.loc_base.specs.Name.{IsName};
ghost use Rattle.suspect_map.specs.Grouping.{group_of, is_number, led_from, PointsWithin};

use crate::chains::Chains;
use crate::group::{Group, Groups};
use crate::label::Label;
use design_core::Place;
use loc_base::{Items, Name, NoMemory};
use std::alloc::Global;

/// The suspects that are to be made of some places.
#[derive(Clone, Copy, Drop)]
pub(crate) struct Grain<'a> {
    /// The name of the granularity.
    pub kind: &'a str,
    pub label: Label,
    pub places: &'a [Place],
}

/// A name that is known to be one.
fn name_of(alloc: Global, text: &str) -> Result<Name, NoMemory>
    requires { IsName text.now }
    ensures { IfOk result (λ name. name ≡ text.now) }
{
    match Name::new(alloc, text.as_bytes())? {
        Some(name) => Ok(name),
        None => unreachable!(),
    }
}

fn is_own(at: u32, first: Option<u32>) -> bool
    ensures { result ≡ is_number at first }
{
    match first {
        Some(first) => at == first,
        None => false,
    }
}

impl Grain<'_> {
    /// The suspect that a place leads, with its places.
    fn group(&self, alloc: Global, first: &Place, places: Items<u32>) -> Result<Group, NoMemory>
        requires name { IsName self.now.kind.now }
        ensures { IfOk result (λ group. group ≡ group_of self.now.label self.now.kind.now first.now places) }
    {
        Ok(Group {
            kind: name_of(alloc, self.kind)?,
            label: self.label.of(alloc, first)?,
            places,
        })
    }

    /// The suspects, the least place of the suspect of each place being given.
    pub(crate) fn groups(&self, alloc: Global, firsts: &[Option<u32>]) -> Result<Groups, NoMemory>
        requires name { IsName self.now.kind.now }
        requires few { length self.now.places.now < 2 ^ 32 }
        requires long { length firsts.now ≡ length self.now.places.now }
        requires within { PointsWithin (length firsts.now) firsts.now }
        ensures { IfOk result (λ groups. groups ≡ led_from self.now.label self.now.kind.now firsts.now 0 self.now.places.now firsts.now) }
    {
        let chains = Chains::new(alloc, firsts)?;
        let mut groups = Items::new(alloc);
        for at in 0..firsts.len() {
            if is_own(at as u32, firsts[at]) {
                let places = chains.places_of(alloc, at)?;
                let group = self.group(alloc, &self.places[at], places)?;
                groups.push(group)?;
            }
        }
        Ok(groups)
    }
}
