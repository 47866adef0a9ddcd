ghost use Rattle.std.specs.Prelude.{◌≡◌, ◌<◌, ◌^◌, ◌||◌, ◌==◌, ℕ, length, OnOk, IfOk};
ghost use Rattle.std.specs.List.{list_any};
ghost use Rattle.design_core.specs.Given.{CanRun};
ghost use Rattle.design_order.specs.Rows.{has};
ghost use Rattle.design_order.specs.Sources.{AreNeeds, AreSources, IsRow, entry_meets};

use crate::sources::{DrivenBits, sources_of};
use design_bits::{BitSet, DriverBits, share_bit};
use design_core::Design;
use loc_base::{Items, NoMemory, Rows};
use std::alloc::Global;

/// Adds the drivers that drive a bit of a mask.
fn add_drivers(row: &mut Vec<u32>, sources: &[DrivenBits], mask: u128) -> Result<(), NoMemory>
    ensures { OnOk result ((j : ℕ) → has row.new.items j ≡ (has row.old.items j || list_any (entry_meets mask j) sources.now)) }
{
    for source in sources {
        if share_bit(source.mask, mask) {
            row.push(source.driver)?;
        }
    }
    Ok(())
}

/// The drivers that drive a bit that is read.
fn row_of(
    alloc: Global,
    sources: &[Items<DrivenBits>],
    reads: &BitSet,
) -> Result<Vec<u32>, NoMemory>
    requires { length sources.now ≡ length reads.now }
    ensures { IfOk result (λ row. IsRow sources.now reads.now row.items) }
{
    let mut row = Vec::new(alloc);
    for signal in reads.signals() {
        add_drivers(&mut row, &sources[*signal], reads.mask(*signal))?;
    }
    Ok(row)
}

/// For each driver those that it depends on.
pub(crate) fn needs_of(alloc: Global, design: &Design) -> Result<Rows<u32>, NoMemory>
    requires fits { CanRun design.now }
    requires few { length design.now.drivers.items < 2 ^ 32 }
    ensures { IfOk result (AreNeeds design.now (length design.now.drivers.items)) }
{
    let sources = sources_of(alloc, design)?;
    let mut reads = DriverBits::new(alloc, design.signals.len())?;
    let mut rows = Rows::new(alloc);
    for driver in &design.drivers {
        reads = reads.waits_of(design, driver)?;
        let row = row_of(alloc, &sources, reads.bits())?;
        rows.push(&row)?;
    }
    Ok(rows)
}
