ghost use Rattle.std.specs.Prelude.{◌≡◌, ◌==◌, ◌<◌, ◌&&◌, ℕ, false, not, nat_lt, length, OnOk};
ghost use Rattle.design_core.specs.Drives.{is_among};
ghost use Rattle.design_core.specs.Valuation.{bit, width_at};
ghost use Rattle.design_bits.specs.Masks.{Adds, has};
ghost use Rattle.design_bits.specs.Regions.{region_has};

use crate::mask::ones;
use crate::set::BitSet;
use design_core::Signal;
use loc_base::NoMemory;
use plain_values::width_at;

/// The same bits of each of so many signals from one on.
#[derive(Clone, Copy)]
pub(crate) struct Region {
    pub(crate) first: u32,
    pub(crate) count: u32,
    pub(crate) mask: u128,
}

impl Region {
    /// No bit.
    pub(crate) fn none() -> Region
        ensures { (s b : ℕ) → b < 128 → region_has result s b ≡ false }
    {
        Region {
            first: 0,
            count: 0,
            mask: 0,
        }
    }

    /// Bits of one signal.
    pub(crate) fn of(signal: u32, mask: u128) -> Region
        ensures { (s b : ℕ) → b < 128 → region_has result s b ≡ (s == signal && bit mask b) }
    {
        Region {
            first: signal,
            count: 1,
            mask,
        }
    }
}

/// Adds the bits of a region, but for those of another set, of the signals that there are.
pub(crate) fn add_region(set: &mut BitSet, sure: &[u128], region: Region) -> Result<(), NoMemory>
    requires { length sure.now ≡ length set.old }
    ensures { OnOk result (Adds set.old set.new (λ s b. region_has region s b && not (has sure.now s b))) }
{
    let end = (region.first as usize + region.count as usize).min(set.len());
    for signal in region.first as usize..end {
        set.add(signal, region.mask & !sure[signal])?;
    }
    Ok(())
}

/// Adds all bits of each of so many signals from one on, of those that there are.
pub fn add_whole(
    set: &mut BitSet,
    signals: &[Signal],
    first: u32,
    count: u32,
) -> Result<(), NoMemory>
    ensures { OnOk result (Adds set.old set.new (λ s b. is_among first count s && nat_lt b (width_at signals.now s))) }
{
    let end = (first as usize + count as usize).min(set.len());
    for signal in first as usize..end {
        set.add(signal, ones(u16::from(width_at(signals, signal))))?;
    }
    Ok(())
}

/// Adds bits of one signal, where there is that signal.
pub fn add_one(set: &mut BitSet, signal: u32, mask: u128) -> Result<(), NoMemory>
    ensures { OnOk result (Adds set.old set.new (λ s b. s == signal && bit mask b)) }
{
    if (signal as usize) < set.len() {
        set.add(signal as usize, mask)?;
    }
    Ok(())
}
