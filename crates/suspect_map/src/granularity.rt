ghost use Rattle.std.specs.Prelude.{◌≡◌, ◌<◌, ◌^◌, ℕ, List, length, IfOk};
ghost use Rattle.design_core.specs.declared.place.Place.{Place};
ghost use Rattle.suspect_map.specs.declared.group.Group.{Group};
ghost use Rattle.suspect_map.specs.Groups.{AreAscending, AreWithin};

use crate::group::Groups;
use design_core::Place;
use loc_base::NoMemory;
use std::alloc::Global;

/// A grain at which suspects are looked for.
///
/// Its meaning: `called` is its name, and `lists` gives the suspects that it makes of a design's places.
pub trait Granularity: Drop {
    ghost called: { Self → List ℕ };

    ghost lists: { Self → List Place → List Group };

    /// The name by which it is asked for. It takes no memory.
    fn name(&self) -> &str
        ensures { result.now ≡ called self.now };

    /// The suspects of a design with these places. Each of their places is the number of one of these, and they ascend.
    fn groups(&self, alloc: Global, places: &[Place]) -> Result<Groups, NoMemory>
        requires few { length places.now < 2 ^ 32 }
        ensures lists { IfOk result (λ groups. groups ≡ lists self.now places.now) }
        ensures within { IfOk result (AreWithin (length places.now)) }
        ensures ascending { IfOk result AreAscending };
}
