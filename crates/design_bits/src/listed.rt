ghost use Rattle.std.specs.Prelude.{◌≡◌, ◌<◌, ◌&&◌, ℕ, [], ◌∷◌, length, slice_index, slice_set, IfOk, OnOk};
ghost use Rattle.std.specs.List.{list_any};
ghost use Rattle.design_core.specs.Reads.{part_assigns};
ghost use Rattle.design_core.specs.Valuation.{bit};
ghost use Rattle.design_bits.specs.Masks.{Adds, has};
ghost use Rattle.design_bits.specs.Listed.{Lists, entry_has, lists, undone};

use crate::mask::{ones, run};
use crate::pick::must_pick;
use crate::region::add_one;
use crate::set::BitSet;
use design_core::{Part, Signal};
use loc_base::NoMemory;
use plain_values::width_at;
use std::alloc::Global;

/// Bits of one signal.
#[derive(Clone, Copy)]
pub(crate) struct SignalBits {
    pub(crate) signal: u32,
    pub(crate) mask: u128,
}

/// The bits that a part of a left side surely assigns.
fn part_bits(signals: &[Signal], part: &Part) -> SignalBits
    ensures { (s b : ℕ) → b < 128 → lists (result ∷ []) s b ≡ part_assigns signals.now s b part.now }
{
    match part {
        Part::Whole(signal) => SignalBits {
            signal: *signal,
            mask: ones(u16::from(width_at(signals, *signal as usize))),
        },
        Part::Slice {
            signal,
            from,
            width,
        } => SignalBits {
            signal: *signal,
            mask: run(*from, *width),
        },
        Part::Pick {
            signal,
            index,
            offsets,
        } => SignalBits {
            signal: *signal,
            mask: must_pick(signals, *signal as usize, index, offsets),
        },
        Part::Word { first, .. } => SignalBits {
            signal: *first,
            mask: 0,
        },
    }
}

/// The bits that a left side surely assigns.
pub(crate) fn parts_bits(
    alloc: Global,
    signals: &[Signal],
    parts: &[Part],
) -> Result<Vec<SignalBits>, NoMemory>
    ensures { IfOk result (λ list. Lists (length signals.now) list.items (λ s b. list_any (part_assigns signals.now s b) parts.now)) }
{
    let mut list = Vec::new(alloc);
    for part in parts {
        list.push(part_bits(signals, part))?;
    }
    Ok(list)
}

/// The bits of a signal in a set, none where there is no such signal.
fn mask_at(set: &BitSet, signal: u32) -> u128
    ensures { result ≡ slice_index set.now signal }
{
    if (signal as usize) < set.len() {
        set.mask(signal as usize)
    } else {
        0
    }
}

/// Of the bits of one signal those that a set has.
fn met_one(set: &BitSet, entry: SignalBits) -> SignalBits
    ensures { (s b : ℕ) → b < 128 → entry_has s b result ≡ (has set.now s b && entry_has s b entry) }
{
    SignalBits {
        signal: entry.signal,
        mask: entry.mask & mask_at(set, entry.signal),
    }
}

/// Of some bits those that a set has.
fn met(alloc: Global, set: &BitSet, some: &[SignalBits]) -> Result<Vec<SignalBits>, NoMemory>
    ensures { IfOk result (λ list. Lists (length set.now) list.items (λ s b. has set.now s b && lists some.now s b)) }
{
    let mut list = Vec::new(alloc);
    for entry in some {
        list.push(met_one(set, *entry))?;
    }
    Ok(list)
}

/// Adds listed bits to a set.
pub(crate) fn add_listed(set: &mut BitSet, some: &[SignalBits]) -> Result<(), NoMemory>
    ensures { OnOk result (Adds set.old set.new (λ s b. lists some.now s b)) }
{
    for entry in some {
        add_one(set, entry.signal, entry.mask)?;
    }
    Ok(())
}

/// The bits that two lists have. The set is empty before, and again after.
pub(crate) fn common(
    alloc: Global,
    empty: &mut BitSet,
    one: &[SignalBits],
    other: &[SignalBits],
) -> Result<Vec<SignalBits>, NoMemory>
    requires { (s : ℕ) → slice_index empty.old s ≡ 0 }
    ensures long { IfOk result (λ list. length empty.new ≡ length empty.old) }
    ensures empty { IfOk result (λ list. (s : ℕ) → slice_index empty.new s ≡ 0) }
    ensures common { IfOk result (λ list. Lists (length empty.old) list.items (λ s b. lists one.now s b && lists other.now s b)) }
{
    add_listed(empty, one)?;
    let list = met(alloc, empty, other)?;
    empty.clear();
    Ok(list)
}

/// Adds bits of one signal to a table, and notes what stood there before.
fn note_one(
    table: &mut [u128],
    before: &mut Vec<SignalBits>,
    entry: SignalBits,
) -> Result<(), NoMemory>
    ensures added { OnOk result (Adds table.old table.new (λ s b. entry_has s b entry)) }
    ensures undone { OnOk result (undone before.new.items table.new ≡ undone before.old.items table.old) }
{
    let signal = entry.signal as usize;
    if signal < table.len() {
        before.push(SignalBits {
            signal: entry.signal,
            mask: table[signal],
        })?;
        table[signal] |= entry.mask;
    }
    Ok(())
}

/// Adds listed bits to a table, and notes what stood there before.
pub(crate) fn note(
    table: &mut [u128],
    before: &mut Vec<SignalBits>,
    some: &[SignalBits],
) -> Result<(), NoMemory>
    ensures added { OnOk result (Adds table.old table.new (λ s b. lists some.now s b)) }
    ensures undone { OnOk result (undone before.new.items table.new ≡ undone before.old.items table.old) }
{
    for entry in some {
        note_one(table, before, *entry)?;
    }
    Ok(())
}

/// Puts back what stood in a table at one place.
fn put_one(table: &mut [u128], entry: SignalBits)
    ensures { table.new ≡ slice_set table.old entry.signal entry.mask }
{
    let signal = entry.signal as usize;
    if signal < table.len() {
        table[signal] = entry.mask;
    }
}

/// Puts back what stood in a table before, the last note first.
pub(crate) fn put_back(table: &mut [u128], before: &[SignalBits])
    ensures { table.new ≡ undone before.now table.old }
{
    for turn in 0..before.len() {
        put_one(table, before[before.len() - 1 - turn]);
    }
}
