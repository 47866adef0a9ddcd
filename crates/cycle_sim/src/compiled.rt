//! A design turned into instructions once: all its drivers in their order, and the statements of its clocked blocks.

ghost use Rattle.std.specs.Prelude.{◌≡◌, ◌<◌, ℕ, IsTrue, IfOk, OnOk, length, nat_lt, slice_get, Some};
ghost use Rattle.std.specs.List.{list_all};
ghost use Rattle.loc_base.specs.Bits.{width_of};
ghost use Rattle.design_core.specs.Drives.{driver_drives, is_driven};
ghost use Rattle.design_core.specs.Given.{CanRun};
ghost use Rattle.design_core.specs.WellFormed.{clocked_fits, driver_fits, part_fits, statement_fits, typed_fits};
ghost use Rattle.cycle_code.specs.Program.{program_of, count_of, Grown};
ghost use Rattle.cycle_code.specs.Fitting.{is_cell, is_place, IsSound};
ghost use Rattle.cycle_sim.specs.Masks.{AreMasksFor, AreMasksOf, AreDriverMasks, widths_of};
ghost use Rattle.cycle_sim.specs.Compiled.{AreBodies, AreResets, Carries, CarriesReset, Drives, IsCompiled, Pushes, cleared_now, driver_now, masked_now, none, number_now, parts_now, put_now, stored_now, whole_now};

use crate::mask::{Mask, mask_at};
use cycle_code::{Code, Instruction, Range};
use cycle_compile::{carry_out, compute, place, whole_of};
use design_core::{BinaryOp, Clocked, Design, Driver, Stmt, Target, Typed};
use loc_base::{NoMemory, Rows};
use std::alloc::Global;

/// The instructions of a design.
#[derive(Drop)]
pub(crate) struct Compiled<'a> {
    pub(crate) code: Code<'a>,
    /// All drivers, in their order.
    pub(crate) drivers: Range,
    /// For each clocked block its body.
    pub(crate) bodies: Vec<Range>,
    /// For each clocked block its reset's values, and nothing where it has none.
    pub(crate) resets: Vec<Range>,
}

/// The number at a place.
#[tactic(auto, using(plain_values::proofs::EvaluateWords::slice_get_at))]
pub(crate) fn number_at(numbers: &[u32], k: usize) -> usize
    requires { k < length numbers.now }
    ensures { slice_get numbers.now k ≡ Some result }
{
    numbers[k] as usize
}

/// The cell of a signal. `NoMemory` past the greatest `u32`; memory ends long before.
fn cell_of(signal: usize) -> Result<u32, NoMemory>
    ensures { IfOk result (λ cell. cell ≡ signal) }
{
    match u32::try_from(signal) {
        Ok(cell) => Ok(cell),
        Err(_) => Err(NoMemory),
    }
}

/// Pushes what puts the bits of a mask at 0.
fn clear_mask(code: &mut Code, mask: Mask) -> Result<(), NoMemory>
    requires sound { IsSound (program_of code.old) }
    requires fits { slice_get (widths_of code.old.design.now.signals.items) mask.signal ≡ Some (width_of mask.bits) }
    ensures pushes { OnOk result (Pushes (program_of code.old) (program_of code.new) (masked_now mask) none) }
    ensures sound { OnOk result (IsSound (program_of code.new)) }
{
    let signal = cell_of(mask.signal)?;
    let others = code.constant(mask.bits.not())?;
    let rest = code.temporary(mask.bits.width())?;
    code.push(Instruction::Put {
        value: rest,
        to: signal,
    })?;
    code.push(Instruction::Binary {
        op: BinaryOp::And,
        left: signal,
        left_signed: false,
        right: others,
        right_signed: false,
        to: rest,
    })
}

/// Pushes what puts the bits of some masks at 0.
fn clear(code: &mut Code, masks: &[Mask]) -> Result<(), NoMemory>
    requires sound { IsSound (program_of code.old) }
    requires masks { AreMasksOf (widths_of code.old.design.now.signals.items) masks.now }
    ensures pushes { OnOk result (Pushes (program_of code.old) (program_of code.new) (cleared_now masks.now) none) }
    ensures sound { OnOk result (IsSound (program_of code.new)) }
{
    for k in (0..masks.len()).rev() {
        clear_mask(code, mask_at(masks, k))?;
    }
    Ok(())
}

/// Pushes what assigns the word of a cell to a whole signal: the value chosen for the place where it has one that is freed.
fn put(code: &mut Code, signal: u32, number: Option<u32>, cell: u32) -> Result<(), NoMemory>
    requires sound { IsSound (program_of code.old) }
    requires signal { signal < count_of (program_of code.old) }
    requires place { (n : ℕ) → number ≡ Some n → IsTrue (is_place (program_of code.old) n) }
    requires cell { IsTrue (is_cell (program_of code.old) cell) }
    ensures pushes { OnOk result (Pushes (program_of code.old) (program_of code.new) (put_now signal number cell) none) }
    ensures sound { OnOk result (IsSound (program_of code.new)) }
{
    match number {
        Some(place) => code.push(Instruction::Set {
            place,
            value: cell,
            to: signal,
        }),
        None => code.push(Instruction::Put {
            value: cell,
            to: signal,
        }),
    }
}

/// Pushes what assigns the word of a cell to a left side.
fn store<'a>(
    code: &mut Code<'a>,
    target: &'a Target,
    number: Option<u32>,
    cell: u32,
) -> Result<(), NoMemory>
    requires sound { IsSound (program_of code.old) }
    requires parts { IsTrue (list_all (part_fits code.old.design.now.signals.items) target.now.parts) }
    requires place { (n : ℕ) → number ≡ Some n → IsTrue (is_place (program_of code.old) n) }
    requires cell { IsTrue (is_cell (program_of code.old) cell) }
    ensures pushes { OnOk result (Pushes (program_of code.old) (program_of code.new) (stored_now target.now.parts number cell) none) }
    ensures sound { OnOk result (IsSound (program_of code.new)) }
{
    let target = code.push_target(target)?;
    match number {
        Some(place) => code.push(Instruction::Assign {
            target,
            place,
            value: cell,
            later: false,
        }),
        None => code.push(Instruction::Store {
            target,
            value: cell,
            later: false,
        }),
    }
}

/// Pushes a continuous assignment to a whole signal, which leaves none of its bits as they were.
fn assign_whole<'a>(
    code: &mut Code<'a>,
    signal: u32,
    number: Option<u32>,
    value: &'a Typed,
) -> Result<(), NoMemory>
    requires sound { IsSound (program_of code.old) }
    requires signal { signal < count_of (program_of code.old) }
    requires place { (n : ℕ) → number ≡ Some n → IsTrue (is_place (program_of code.old) n) }
    requires value { IsTrue (typed_fits code.old.design.now.signals.items value.now) }
    ensures pushes { OnOk result (Pushes (program_of code.old) (program_of code.new) (whole_now signal number value.now) none) }
    ensures sound { OnOk result (IsSound (program_of code.new)) }
{
    let cell = place(code, value)?;
    put(code, signal, number, cell)?;
    compute(code, value, cell)
}

/// Pushes a continuous assignment to any left side. Its value is put into a cell of its own first, since it may be a signal
/// some bits of which are put at 0.
fn assign_parts<'a>(
    code: &mut Code<'a>,
    masks: &[Mask],
    target: &'a Target,
    number: Option<u32>,
    value: &'a Typed,
) -> Result<(), NoMemory>
    requires sound { IsSound (program_of code.old) }
    requires masks { AreMasksOf (widths_of code.old.design.now.signals.items) masks.now }
    requires parts { IsTrue (list_all (part_fits code.old.design.now.signals.items) target.now.parts) }
    requires place { (n : ℕ) → number ≡ Some n → IsTrue (is_place (program_of code.old) n) }
    requires value { IsTrue (typed_fits code.old.design.now.signals.items value.now) }
    ensures pushes { OnOk result (Pushes (program_of code.old) (program_of code.new) (parts_now masks.now target.now.parts number value.now) none) }
    ensures sound { OnOk result (IsSound (program_of code.new)) }
{
    let cell = place(code, value)?;
    let word = code.temporary(value.width)?;
    store(code, target, number, word)?;
    clear(code, masks)?;
    code.push(Instruction::Move {
        from: cell,
        to: word,
    })?;
    compute(code, value, cell)
}

/// Pushes a driver, whose own bits are those of some masks: its right side reads the words as they are, then its own bits are
/// put at 0, and then it stores.
fn drive<'a>(code: &mut Code<'a>, masks: &[Mask], driver: &'a Driver) -> Result<(), NoMemory>
    requires sound { IsSound (program_of code.old) }
    requires masks { AreMasksFor code.old.design.now.signals.items masks.now (λ s b. driver_drives code.old.design.now.signals.items s b driver.now) }
    requires fits { IsTrue (driver_fits code.old.design.now.signals.items code.old.design.now.places.items driver.now) }
    ensures pushes { OnOk result (Pushes (program_of code.old) (program_of code.new) (driver_now driver.now)
        (λ s b. driver_drives code.old.design.now.signals.items s b driver.now)) }
    ensures sound { OnOk result (IsSound (program_of code.new)) }
{
    match driver {
        Driver::Cont {
            target,
            value,
            place,
            ..
        } => match whole_of(&target.parts) {
            Some(signal) => assign_whole(code, signal, *place, value),
            None => assign_parts(code, masks, target, *place, value),
        },
        Driver::Comb { body, .. } => {
            carry_out(code, body)?;
            clear(code, masks)
        }
    }
}

/// Pushes the driver of a number.
fn drive_one<'a>(
    code: &mut Code<'a>,
    design: &'a Design,
    i: usize,
    masks: &Rows<Mask>,
) -> Result<(), NoMemory>
    requires sound { IsSound (program_of code.old) }
    requires design { code.old.design.now ≡ design.now }
    requires can { CanRun design.now }
    requires number { i < length design.now.drivers.items }
    requires masks { AreDriverMasks design.now masks.now }
    ensures pushes { OnOk result (Pushes (program_of code.old) (program_of code.new) (number_now i) (is_driven design.now)) }
    ensures sound { OnOk result (IsSound (program_of code.new)) }
{
    drive(code, masks.row(i), &design.drivers[i])
}

/// Pushes the drivers in an order.
fn drive_all<'a>(
    code: &mut Code<'a>,
    design: &'a Design,
    order: &[u32],
    masks: &Rows<Mask>,
) -> Result<Range, NoMemory>
    requires sound { IsSound (program_of code.old) }
    requires design { code.old.design.now ≡ design.now }
    requires can { CanRun design.now }
    requires order { IsTrue (list_all (λ i. nat_lt i (length design.now.drivers.items)) order.now) }
    requires masks { AreDriverMasks design.now masks.now }
    ensures drives { IfOk result (λ range. Drives (program_of code.new) range order.now) }
    ensures grown { OnOk result (Grown (program_of code.old) (program_of code.new)) }
    ensures sound { OnOk result (IsSound (program_of code.new)) }
{
    let to = code.len();
    for k in (0..order.len()).rev() {
        drive_one(code, design, number_at(order, k), masks)?;
    }
    let from = code.len();
    Ok(Range { from, to })
}

/// Pushes a statement of a clocked block.
fn carry<'a>(code: &mut Code<'a>, statement: &'a Stmt) -> Result<Range, NoMemory>
    requires sound { IsSound (program_of code.old) }
    requires fits { IsTrue (statement_fits code.old.design.now.signals.items code.old.design.now.places.items statement.now) }
    ensures carries { IfOk result (λ range. Carries (program_of code.new) range statement.now) }
    ensures grown { OnOk result (Grown (program_of code.old) (program_of code.new)) }
    ensures sound { OnOk result (IsSound (program_of code.new)) }
{
    let to = code.len();
    carry_out(code, statement)?;
    let from = code.len();
    Ok(Range { from, to })
}

/// Pushes the values of a block's reset, where it has one.
fn carry_reset<'a>(code: &mut Code<'a>, block: &'a Clocked) -> Result<Range, NoMemory>
    requires sound { IsSound (program_of code.old) }
    requires fits { IsTrue (clocked_fits code.old.design.now block.now) }
    ensures carries { IfOk result (λ range. CarriesReset (program_of code.new) range block.now) }
    ensures grown { OnOk result (Grown (program_of code.old) (program_of code.new)) }
    ensures sound { OnOk result (IsSound (program_of code.new)) }
{
    match &block.reset {
        Some(reset) => carry(code, &reset.values),
        None => Ok(Range { from: 0, to: 0 }),
    }
}

/// Pushes the bodies of clocked blocks.
fn carry_bodies<'a>(
    alloc: Global,
    code: &mut Code<'a>,
    blocks: &'a [Clocked],
) -> Result<Vec<Range>, NoMemory>
    requires sound { IsSound (program_of code.old) }
    requires fits { IsTrue (list_all (clocked_fits code.old.design.now) blocks.now) }
    ensures bodies { IfOk result (λ ranges. AreBodies (program_of code.new) blocks.now ranges.items) }
    ensures grown { OnOk result (Grown (program_of code.old) (program_of code.new)) }
    ensures sound { OnOk result (IsSound (program_of code.new)) }
{
    let mut ranges = Vec::new(alloc);
    for block in blocks {
        let range = carry(code, &block.body)?;
        ranges.push(range)?;
    }
    Ok(ranges)
}

/// Pushes the values of the resets of clocked blocks.
fn carry_resets<'a>(
    alloc: Global,
    code: &mut Code<'a>,
    blocks: &'a [Clocked],
) -> Result<Vec<Range>, NoMemory>
    requires sound { IsSound (program_of code.old) }
    requires fits { IsTrue (list_all (clocked_fits code.old.design.now) blocks.now) }
    ensures resets { IfOk result (λ ranges. AreResets (program_of code.new) blocks.now ranges.items) }
    ensures grown { OnOk result (Grown (program_of code.old) (program_of code.new)) }
    ensures sound { OnOk result (IsSound (program_of code.new)) }
{
    let mut ranges = Vec::new(alloc);
    for block in blocks {
        let range = carry_reset(code, block)?;
        ranges.push(range)?;
    }
    Ok(ranges)
}

/// Turns a design into instructions. The masks are those of its drivers, which are carried out in the order.
pub(crate) fn compile<'a>(
    alloc: Global,
    design: &'a Design,
    order: &[u32],
    masks: &Rows<Mask>,
) -> Result<Compiled<'a>, NoMemory>
    requires can { CanRun design.now }
    requires order { IsTrue (list_all (λ i. nat_lt i (length design.now.drivers.items)) order.now) }
    requires masks { AreDriverMasks design.now masks.now }
    ensures { IfOk result (IsCompiled design.now order.now) }
{
    let mut code = Code::new(alloc, design)?;
    let drivers = drive_all(&mut code, design, order, masks)?;
    let bodies = carry_bodies(alloc, &mut code, &design.clocked)?;
    let resets = carry_resets(alloc, &mut code, &design.clocked)?;
    Ok(Compiled {
        code,
        drivers,
        bodies,
        resets,
    })
}
