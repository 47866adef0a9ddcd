//! What a simulator makes of a design once: the masks of its registers, drivers and clocked blocks.

ghost use Rattle.std.specs.Prelude.{◌≡◌, ◌<◌, ◌+◌, ◌&&◌, not, nat_lt, ℕ, List, IsTrue, IfOk, OnOk, length, slice_get, Some, map};
ghost use Rattle.std.specs.List.{list_all};
ghost use Rattle.loc_base.specs.Bits.{width_of, bit_of};
ghost use Rattle.design_core.specs.Valuation.{width_at};
ghost use Rattle.design_core.specs.Words.{valuation_of, AreWordsOf};
ghost use Rattle.design_core.specs.Given.{CanRun};
ghost use Rattle.design_core.specs.Drives.{is_reg, is_driven, is_register_bit, driver_drives, block_assigns_later};
ghost use Rattle.design_core.specs.WellFormed.{signal_fits, driver_fits, clocked_fits};
ghost use Rattle.cycle_sim.specs.Masks.{AreMasksFor, AreMasksOf, AreDriverMasks, AreClockedMasks, covers, in_mask};
ghost use Rattle.cycle_sim.specs.Planned.{is_full_bit, block_assigns, Keeps, ListedSoFar, Pushed};
ghost use Rattle.loc_base.specs.declared.bits.Bits.{Bits as Word};
ghost use Rattle.cycle_sim.specs.Holding.{IsPlan};

use crate::block::BlockMasks;
use crate::collect::{add_parts, add_statement};
use crate::mask::{Mask, clear_bits, mask_at};
use crate::registers::Registers;
use design_core::{Clocked, Design, Driver, Signal, SignalKind};
use loc_base::{Bits, NoMemory, Rows};
use plain_sim::block_assigns_later;
use std::alloc::Global;

/// The masks of a design.
#[derive(Drop)]
pub(crate) struct Plan {
    /// The bits of registers.
    pub(crate) registers: Registers,
    /// For each driver the bits that it drives.
    pub(crate) drivers: Rows<Mask>,
    pub(crate) blocks: BlockMasks,
}

/// The signal of a number.
#[tactic(auto, using(plain_values::proofs::EvaluateWords::slice_get_at))]
pub(crate) fn signal_at(signals: &[Signal], k: usize) -> &Signal
    requires { k < length signals.now }
    ensures { slice_get signals.now k ≡ Some result.now }
{
    &signals[k]
}

/// A word of a signal's width with 1 in each bit of a variable, and 0 in each bit of another signal.
fn full_word(signal: &Signal) -> Bits
    requires { IsTrue (signal_fits signal.now) }
    ensures width { width_of result ≡ signal.now.width }
    ensures bits { (b : ℕ) → bit_of result b ≡ (is_reg signal.now.kind && nat_lt b signal.now.width) }
{
    let none = Bits::zero(signal.width);
    match signal.kind {
        SignalKind::Reg => none.not(),
        SignalKind::Input | SignalKind::Net => none,
    }
}

/// The words of all signals that are variables with 1 in each bit, those of others with 0.
fn full_words(alloc: Global, signals: &[Signal]) -> Result<Vec<Bits>, NoMemory>
    requires { IsTrue (list_all signal_fits signals.now) }
    ensures words { IfOk result (λ words. AreWordsOf signals.now words.items) }
    ensures bits { IfOk result (λ words. (s b : ℕ) → valuation_of words.items s b ≡ is_full_bit signals.now s b) }
{
    let mut words = Vec::new(alloc);
    for k in 0..signals.len() {
        words.push(full_word(signal_at(signals, k)))?;
    }
    Ok(words)
}

/// Puts the bits at 0 that drivers drive.
fn clear_driven(design: &Design, drivers: &Rows<Mask>, words: &mut [Bits])
    requires words { AreWordsOf design.now.signals.items words.old }
    requires drivers { AreDriverMasks design.now drivers.now }
    ensures words { AreWordsOf design.now.signals.items words.new }
    ensures bits { (s b : ℕ) → valuation_of words.new s b ≡ (valuation_of words.old s b && not (is_driven design.now s b)) }
{
    for i in 0..drivers.len() {
        clear_bits(drivers.row(i), words);
    }
}

/// The words with 1 in each bit of a register.
fn register_words(
    alloc: Global,
    design: &Design,
    drivers: &Rows<Mask>,
) -> Result<Vec<Bits>, NoMemory>
    requires signals { IsTrue (list_all signal_fits design.now.signals.items) }
    requires drivers { AreDriverMasks design.now drivers.now }
    ensures words { IfOk result (λ words. AreWordsOf design.now.signals.items words.items) }
    ensures bits { IfOk result (λ words. (s b : ℕ) → valuation_of words.items s b
        ≡ (is_register_bit design.now s b && nat_lt b (width_at design.now.signals.items s))) }
{
    let mut words = full_words(alloc, &design.signals)?;
    clear_driven(design, drivers, &mut words);
    Ok(words)
}

/// Appends the mask of the bits at which the word of a signal has 1, where there is one.
fn list_word(signal: usize, bits: Bits, masks: &mut Vec<Mask>) -> Result<(), NoMemory>
    ensures { OnOk result ((words : List Word) → slice_get words signal ≡ Some bits
        → ListedSoFar words masks.old.items signal → ListedSoFar words masks.new.items (signal + 1)) }
{
    if bits.value() == 0 {
        return Ok(());
    }
    masks.push(Mask { signal, bits })?;
    Ok(())
}

/// The masks of the bits at which words have 1.
fn masks_of(alloc: Global, words: &[Bits]) -> Result<Vec<Mask>, NoMemory>
    ensures widths { IfOk result (λ masks. AreMasksOf (map width_of words.now) masks.items) }
    ensures bits { IfOk result (λ masks. (s b : ℕ) → covers masks.items s b ≡ valuation_of words.now s b) }
{
    let mut masks = Vec::new(alloc);
    for signal in 0..words.len() {
        list_word(signal, words[signal], &mut masks)?;
    }
    Ok(masks)
}

/// The bits that a driver drives.
fn driver_masks(alloc: Global, design: &Design, driver: &Driver) -> Result<Vec<Mask>, NoMemory>
    requires signals { IsTrue (list_all signal_fits design.now.signals.items) }
    requires fits { IsTrue (driver_fits design.now.signals.items design.now.places.items driver.now) }
    ensures { IfOk result (λ masks. AreMasksFor design.now.signals.items masks.items (λ s b. driver_drives design.now.signals.items s b driver.now)) }
{
    let mut row = Vec::new(alloc);
    match driver {
        Driver::Cont { target, .. } => {
            add_parts(&design.signals, &target.parts, &mut row)?;
            Ok(row)
        }
        Driver::Comb { body, .. } => {
            add_statement(design, body, false, &mut row)?;
            Ok(row)
        }
    }
}

/// A row of masks for each driver.
fn drivers_masks(alloc: Global, design: &Design) -> Result<Rows<Mask>, NoMemory>
    requires design { CanRun design.now }
    ensures { IfOk result (AreDriverMasks design.now) }
{
    let mut rows = Rows::new(alloc);
    for i in 0..design.drivers.len() {
        let row = driver_masks(alloc, design, &design.drivers[i])?;
        rows.push(&row)?;
    }
    Ok(rows)
}

/// The bits that a clocked block assigns, by its body or by its reset's values; where `only_now` is true, by `=`.
fn assigned_masks(
    alloc: Global,
    design: &Design,
    block: &Clocked,
    only_now: bool,
) -> Result<Vec<Mask>, NoMemory>
    requires signals { IsTrue (list_all signal_fits design.now.signals.items) }
    requires fits { IsTrue (clocked_fits design.now block.now) }
    ensures { IfOk result (λ masks. AreMasksFor design.now.signals.items masks.items (block_assigns design.now.signals.items only_now block.now)) }
{
    let mut row = Vec::new(alloc);
    add_statement(design, &block.body, only_now, &mut row)?;
    match &block.reset {
        Some(reset) => {
            add_statement(design, &reset.values, only_now, &mut row)?;
            Ok(row)
        }
        None => Ok(row),
    }
}

/// The mask of a number with the bits alone that a word of its signal has.
fn within(mask: Mask, words: &[Bits]) -> Mask
    requires { slice_get (map width_of words.now) mask.signal ≡ Some (width_of mask.bits) }
    ensures width { slice_get (map width_of words.now) result.signal ≡ Some (width_of result.bits) }
    ensures bits { (s b : ℕ) → in_mask result s b ≡ (in_mask mask s b && valuation_of words.now s b) }
{
    Mask {
        signal: mask.signal,
        bits: mask.bits.and(words[mask.signal]),
    }
}

/// Those of the bits of some masks that are registers'. `registers` has 1 in each bit of a register.
fn own_masks(alloc: Global, masks: &[Mask], registers: &[Bits]) -> Result<Vec<Mask>, NoMemory>
    requires { AreMasksOf (map width_of registers.now) masks.now }
    ensures widths { IfOk result (λ own. AreMasksOf (map width_of registers.now) own.items) }
    ensures bits { IfOk result (λ own. (s b : ℕ) → covers own.items s b ≡ (covers masks.now s b && valuation_of registers.now s b)) }
{
    let mut own = Vec::new(alloc);
    for k in 0..masks.len() {
        own.push(within(mask_at(masks, k), registers))?;
    }
    Ok(own)
}

/// Appends a mask where a clocked block does not assign its signal by `<=`.
fn keep_mask(
    design: &Design,
    block: &Clocked,
    mask: Mask,
    now: &mut Vec<Mask>,
) -> Result<(), NoMemory>
    ensures { OnOk result (Keeps block.now mask now.old.items now.new.items) }
{
    if block_assigns_later(&design.signals, mask.signal, block) {
        return Ok(());
    }
    now.push(mask)?;
    Ok(())
}

/// Those masks whose signals a clocked block does not assign by `<=`.
fn now_masks(
    alloc: Global,
    design: &Design,
    block: &Clocked,
    masks: &[Mask],
) -> Result<Vec<Mask>, NoMemory>
    ensures widths { IfOk result (λ now. (widths : List ℕ) → AreMasksOf widths masks.now → AreMasksOf widths now.items) }
    ensures bits { IfOk result (λ now. (s b : ℕ) → covers now.items s b ≡ (covers masks.now s b && not (block_assigns_later s block.now))) }
{
    let mut now = Vec::new(alloc);
    for k in 0..masks.len() {
        keep_mask(design, block, mask_at(masks, k), &mut now)?;
    }
    Ok(now)
}

/// Appends the masks of a clocked block to the rows.
fn push_block(
    alloc: Global,
    design: &Design,
    registers: &[Bits],
    block: &Clocked,
    rows: &mut BlockMasks,
) -> Result<(), NoMemory>
    requires signals { IsTrue (list_all signal_fits design.now.signals.items) }
    requires fits { IsTrue (clocked_fits design.now block.now) }
    requires registers { AreWordsOf design.now.signals.items registers.now }
    requires bits { (s b : ℕ) → valuation_of registers.now s b ≡ (is_register_bit design.now s b && nat_lt b (width_at design.now.signals.items s)) }
    ensures { OnOk result (Pushed design.now block.now rows.old rows.new) }
{
    let all = assigned_masks(alloc, design, block, false)?;
    let own = own_masks(alloc, &all, registers)?;
    let at_once = assigned_masks(alloc, design, block, true)?;
    let now = now_masks(alloc, design, block, &own)?;
    rows.own.push(&own)?;
    rows.at_once.push(&at_once)?;
    rows.now.push(&now)?;
    Ok(())
}

/// The masks of all clocked blocks.
fn blocks_masks(alloc: Global, design: &Design, registers: &[Bits]) -> Result<BlockMasks, NoMemory>
    requires design { CanRun design.now }
    requires registers { AreWordsOf design.now.signals.items registers.now }
    requires bits { (s b : ℕ) → valuation_of registers.now s b ≡ (is_register_bit design.now s b && nat_lt b (width_at design.now.signals.items s)) }
    ensures { IfOk result (λ masks. AreClockedMasks design.now masks.own masks.at_once masks.now) }
{
    let mut rows = BlockMasks {
        own: Rows::new(alloc),
        at_once: Rows::new(alloc),
        now: Rows::new(alloc),
    };
    for i in 0..design.clocked.len() {
        push_block(alloc, design, registers, &design.clocked[i], &mut rows)?;
    }
    Ok(rows)
}

/// Makes the masks of a design.
pub(crate) fn plan_of(alloc: Global, design: &Design) -> Result<Plan, NoMemory>
    requires { CanRun design.now }
    ensures { IfOk result (IsPlan design.now) }
{
    let drivers = drivers_masks(alloc, design)?;
    let words = register_words(alloc, design, &drivers)?;
    let blocks = blocks_masks(alloc, design, &words)?;
    let registers = Registers::new(alloc, masks_of(alloc, &words)?)?;
    Ok(Plan {
        registers,
        drivers,
        blocks,
    })
}
