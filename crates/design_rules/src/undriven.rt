ghost use Rattle.std.specs.Prelude.{◌≡◌, ◌<◌, ◌&&◌, ℕ, true, false, not, length, IfOk, OnOk, IfNone, IfSome};
ghost use Rattle.std.specs.List.{list_any};
ghost use Rattle.design_core.specs.Drives.{driver_drives, block_drives};
ghost use Rattle.design_core.specs.Mentions.{driver_mentions, block_mentions};
ghost use Rattle.design_core.specs.Given.{CanRun};
ghost use Rattle.design_bits.specs.Masks.{Adds, has};
ghost use Rattle.design_rules.specs.First.{IsFirst};
ghost use Rattle.design_rules.specs.DrivenReads.{IsUndriven};
ghost use Rattle.design_rules.specs.Used.{AreDriven, AreUsed, lacks, lacks_at, output_has};

use crate::tally::join;
use design_bits::{
    BitSet, add_block, add_block_mentions, add_driver, add_driver_mentions, add_whole, exceeds,
};
use design_core::{Design, Signal, SignalKind};
use loc_base::NoMemory;
use std::alloc::Global;

/// Adds the bits of a set to a table.
fn join_own(table: &mut Vec<u128>, own: &BitSet)
    requires { length table.old.items ≡ length own.now }
    ensures { Adds table.old.items table.new.items (λ s b. has own.now s b) }
{
    join(table, own);
}

/// Adds the bits that drivers drive to a table.
fn join_drivers(table: &mut Vec<u128>, own: &mut BitSet, design: &Design) -> Result<(), NoMemory>
    requires { length table.old.items ≡ length own.old }
    ensures long { OnOk result (length own.new ≡ length own.old) }
    ensures adds { OnOk result (Adds table.old.items table.new.items (λ s b. list_any (driver_drives design.now.signals.items s b) design.now.drivers.items)) }
{
    for driver in &design.drivers {
        own.clear();
        add_driver(own, &design.signals, driver)?;
        join_own(table, own);
    }
    Ok(())
}

/// Adds the bits that clocked blocks drive to a table.
fn join_blocks(table: &mut Vec<u128>, own: &mut BitSet, design: &Design) -> Result<(), NoMemory>
    requires { length table.old.items ≡ length own.old }
    ensures { OnOk result (Adds table.old.items table.new.items (λ s b. list_any (block_drives design.now.signals.items s b) design.now.clocked.items)) }
{
    for block in &design.clocked {
        own.clear();
        add_block(own, &design.signals, block)?;
        join_own(table, own);
    }
    Ok(())
}

/// All bits that some entry drives.
fn driven_bits(alloc: Global, design: &Design) -> Result<Vec<u128>, NoMemory>
    ensures { IfOk result (λ masks. AreDriven design.now masks.items) }
{
    let mut table = vec![in alloc; 0; design.signals.len()]?;
    let mut own = BitSet::new(alloc, design.signals.len())?;
    join_drivers(&mut table, &mut own, design)?;
    join_blocks(&mut table, &mut own, design)?;
    Ok(table)
}

/// Adds the bits of outputs.
pub fn add_outputs(used: &mut BitSet, design: &Design) -> Result<(), NoMemory>
    ensures { OnOk result (Adds used.old used.new (λ s b. list_any (output_has design.now s b) design.now.outputs.items)) }
{
    for output in &design.outputs {
        add_whole(used, &design.signals, *output, 1)?;
    }
    Ok(())
}

/// Adds the bits that drivers read and that a table lacks.
pub fn add_drivers_reads(
    used: &mut BitSet,
    driven: &[u128],
    design: &Design,
) -> Result<(), NoMemory>
    requires { length driven.now ≡ length used.old }
    ensures { OnOk result (Adds used.old used.new (λ s b. list_any (driver_mentions design.now.signals.items s b) design.now.drivers.items && not (has driven.now s b))) }
{
    for driver in &design.drivers {
        add_driver_mentions(used, driven, &design.signals, driver)?;
    }
    Ok(())
}

/// Adds the bits that clocked blocks read and that a table lacks.
fn add_blocks_reads(used: &mut BitSet, driven: &[u128], design: &Design) -> Result<(), NoMemory>
    requires { length driven.now ≡ length used.old }
    ensures { OnOk result (Adds used.old used.new (λ s b. list_any (block_mentions design.now.signals.items s b) design.now.clocked.items && not (has driven.now s b))) }
{
    for block in &design.clocked {
        add_block_mentions(used, driven, &design.signals, block)?;
    }
    Ok(())
}

/// The bits of outputs, and those that are read and not driven.
fn used_bits(alloc: Global, design: &Design, driven: &[u128]) -> Result<BitSet, NoMemory>
    requires { length driven.now ≡ length design.now.signals.items }
    ensures { IfOk result (AreUsed design.now driven.now) }
{
    let mut used = BitSet::new(alloc, design.signals.len())?;
    add_outputs(&mut used, design)?;
    add_drivers_reads(&mut used, driven, design)?;
    add_blocks_reads(&mut used, driven, design)?;
    Ok(used)
}

/// Whether a signal is a net that uses a bit without a driver.
fn lacks_driver(kind: SignalKind, used: u128, driven: u128) -> bool
    ensures { result ≡ lacks kind used driven }
{
    match kind {
        SignalKind::Net => exceeds(used, driven),
        SignalKind::Input | SignalKind::Reg => false,
    }
}

/// The first net with a bit that is used and has no driver.
fn first_lacking(signals: &[Signal], used: &BitSet, driven: &[u128]) -> Option<usize>
    requires used { length used.now ≡ length signals.now }
    requires driven { length driven.now ≡ length signals.now }
    ensures none { IfNone result ((k : ℕ) → lacks_at signals.now used.now driven.now k ≡ false) }
    ensures some { IfSome result (λ s. lacks_at signals.now used.now driven.now s ≡ true) }
    ensures first { IfSome result (λ s. (k : ℕ) → k < s → lacks_at signals.now used.now driven.now k ≡ false) }
{
    for (place, signal) in signals.iter().enumerate() {
        if lacks_driver(signal.kind, used.mask(place), driven[place]) {
            return Some(place);
        }
    }
    None
}

/// The first net with a bit that is read anywhere, or is one of an output of the top, and has no driver; `None` where there is none.
pub fn first_undriven(alloc: Global, design: &Design) -> Result<Option<usize>, NoMemory>
    requires { CanRun design.now }
    ensures { IfOk result (IsFirst (IsUndriven design.now)) }
{
    let driven = driven_bits(alloc, design)?;
    let used = used_bits(alloc, design, &driven)?;
    Ok(first_lacking(&design.signals, &used, &driven))
}
