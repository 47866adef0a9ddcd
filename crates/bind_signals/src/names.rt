//! Names among which one is found by one look into a table.
ghost use Rattle.std.specs.Prelude.{◌≡◌, ℕ, List, ◌||◌, OnOk, IfOk};
ghost use Rattle.v_hierarchy.specs.Names.{same_name};
ghost use Rattle.v_hierarchy.specs.Parameters.{is_among};
ghost use Rattle.bind_signals.specs.Tables.{is_in};
ghost use Rattle.bind_signals.specs.LoopNames.{named};

use loc_base::{Name, NoMemory};
use std::alloc::Global;
use v_hierarchy::Places;

/// One name more, if it is new.
fn insert<'t>(name: &'t Name, table: &mut Places<'t>) -> Result<(), NoMemory>
    ensures { OnOk result ((q : List ℕ) → is_in table.new q ≡ (same_name name.now q || is_in table.old q)) }
{
    table.put(name.as_bytes(), 0)?;
    Ok(())
}

/// The table of names.
pub(crate) fn table_of<'t>(alloc: Global, names: &[&'t Name]) -> Result<Places<'t>, NoMemory>
    ensures { IfOk result (λ table. (q : List ℕ) → is_in table q ≡ is_among q (named names.now)) }
{
    let mut table = Places::new(alloc);
    for name in names {
        insert(name, &mut table)?;
    }
    Ok(table)
}
