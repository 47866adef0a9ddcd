ghost use Rattle.std.specs.Prelude.{◌≡◌, ◌<◌, ◌^◌, ◌&&◌, ◌==◌, ℕ, [], length, vec_len, OnOk, IfOk};
ghost use Rattle.design_bits.specs.Masks.{has};
ghost use Rattle.design_order.specs.Sources.{AddsSource, AreSources, row_at};

use design_bits::{BitSet, add_driver};
use design_core::Design;
use loc_base::{Items, NoMemory};
use std::alloc::Global;

/// The bits of a signal that a driver drives.
#[derive(Clone, Copy)]
pub(crate) struct DrivenBits {
    pub(crate) driver: u32,
    pub(crate) mask: u128,
}

/// Adds a driver to the row of each signal of which it drives bits.
fn add_source(
    sources: &mut Vec<Items<DrivenBits>>,
    driver: u32,
    own: &BitSet,
) -> Result<(), NoMemory>
    requires { vec_len sources.old ≡ length own.now }
    ensures { OnOk result (AddsSource sources.old.items sources.new.items driver (λ s b. has own.now s b)) }
{
    for signal in own.signals() {
        let mask = own.mask(*signal);
        sources[*signal].push(DrivenBits { driver, mask })?;
    }
    Ok(())
}

/// Rows for so many signals, without an entry.
fn empty_rows(alloc: Global, signals: usize) -> Result<Vec<Items<DrivenBits>>, NoMemory>
    ensures long { IfOk result (λ rows. length rows.items ≡ signals) }
    ensures none { IfOk result (λ rows. (s : ℕ) → row_at rows.items s ≡ []) }
{
    let mut rows = Vec::new(alloc);
    for _ in 0..signals {
        rows.push(Items::new(alloc))?;
    }
    Ok(rows)
}

/// For each signal the drivers of its bits.
pub(crate) fn sources_of(alloc: Global, design: &Design) -> Result<Vec<Items<DrivenBits>>, NoMemory>
    requires { length design.now.drivers.items < 2 ^ 32 }
    ensures { IfOk result (λ sources. AreSources design.now.signals.items design.now.drivers.items sources.items) }
{
    let mut sources = empty_rows(alloc, design.signals.len())?;
    let mut own = BitSet::new(alloc, design.signals.len())?;
    for (number, driver) in design.drivers.iter().enumerate() {
        own.clear();
        add_driver(&mut own, &design.signals, driver)?;
        add_source(&mut sources, number as u32, &own)?;
    }
    Ok(sources)
}
