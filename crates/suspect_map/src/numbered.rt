//! Granularities that tell suspects apart by a number of their places.
ghost use Rattle.std.specs.Prelude.{◌≡◌, ◌<◌, ◌^◌, ℕ, Option, length, map, nat_eq, IfOk};
ghost use Rattle.loc_base.specs.Name.{IsName};
ghost use Rattle.design_core.specs.declared.place.Place.{Place};
ghost use Rattle.suspect_map.specs.Groups.{groups_of, AreAscending, AreWithin};

use crate::firsts::firsts_by_number;
use crate::group::Groups;
use crate::grouping::Grain;
use design_core::Place;
use loc_base::NoMemory;
use std::alloc::Global;

/// A granularity whose suspects have a number each. The places of one number are one suspect, and a place without one is in
/// none.
pub(crate) trait Numbered {
    ghost number: { Place → Option ℕ };

    fn number_of(place: &Place) -> Option<u32>
        ensures { result ≡ number place.now };
}

fn numbers_of<N: Numbered>(alloc: Global, places: &[Place]) -> Result<Vec<Option<u32>>, NoMemory>
    ensures { IfOk result (λ numbers. numbers.items ≡ map N.number places.now) }
{
    let mut numbers = Vec::new(alloc);
    for place in places {
        numbers.push(N::number_of(place))?;
    }
    Ok(numbers)
}

impl Grain<'_> {
    /// The suspects, one for each number of the places.
    pub(crate) fn groups_by_number<N: Numbered>(&self, alloc: Global) -> Result<Groups, NoMemory>
        requires name { IsName self.now.kind.now }
        requires few { length self.now.places.now < 2 ^ 32 }
        ensures lists { IfOk result (λ groups. groups ≡ groups_of (record { key = N.number; same = nat_eq; label = self.now.label }) self.now.kind.now self.now.places.now) }
        ensures within { IfOk result (AreWithin (length self.now.places.now)) }
        ensures ascending { IfOk result AreAscending }
    {
        let firsts = firsts_by_number(alloc, &numbers_of::<N>(alloc, self.places)?)?;
        self.groups(alloc, &firsts)
    }
}
