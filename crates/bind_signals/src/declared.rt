//! What the names of one scope are declared as, found by one look into a table.
ghost use Rattle.std.specs.Prelude.{◌≡◌, map, IfOk};
ghost use Rattle.v_hierarchy.specs.Frames.{names_of};
ghost use Rattle.v_hierarchy.specs.Views.{entry_of};
ghost use Rattle.v_binding.specs.Standing.{EntriesStand};
ghost use Rattle.bind_signals.specs.Firsts.{firsts};

use loc_base::NoMemory;
use std::alloc::Global;
use v_hierarchy::{Entry, Frame};

/// The first entry of each name.
pub(crate) fn first_of_each<'t>(alloc: Global, entries: &[Entry<'t>]) -> Result<Frame<'t>, NoMemory>
    requires { EntriesStand (map entry_of entries.now) }
    ensures { IfOk result (λ frame. names_of frame ≡ firsts (map entry_of entries.now)) }
{
    let mut frame = Frame::new(alloc);
    for entry in entries {
        if frame.find(&entry.name.name).is_none() {
            frame.append(*entry)?;
        }
    }
    Ok(frame)
}
