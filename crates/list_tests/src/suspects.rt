//! Each place of a design as a suspect.

ghost use Rattle.std.specs.Prelude.{IfOk, length};
ghost use Rattle.suspect_map.specs.Groups.{AreWithin};

use design_core::Design;
use loc_base::Items;
use small_networks::{NetworkErr, name};
use std::alloc::Global;
use suspect_map::{Group, Groups};

/// Each place of a design as a suspect of its own.
pub(super) fn suspects(alloc: Global, d: &Design) -> Result<Groups, NetworkErr>
    ensures { IfOk result (AreWithin (length d.now.places.items)) }
{
    let mut groups = Items::new(alloc);
    for place in 0..d.places.len().min(100) {
        let mut places = Items::new(alloc);
        places.push(place as u32)?;
        groups.push(Group {
            kind: name(alloc, "stmt")?,
            label: name(alloc, "m")?,
            places,
        })?;
    }
    Ok(groups)
}
