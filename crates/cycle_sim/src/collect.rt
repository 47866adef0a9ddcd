//! The masks of the bits that left sides and statements assign.

ghost use Rattle.std.specs.Prelude.{◌≡◌, ◌==◌, ◌&&◌, not, ◌<◌, ◌≤◌, ◌+◌, ◌^◌, ℕ, IsTrue, OnOk, length};
ghost use Rattle.std.specs.List.{list_any, list_all};
ghost use Rattle.loc_base.specs.Bits.{width_of, value_of};
ghost use Rattle.design_core.specs.Valuation.{number, width_at};
ghost use Rattle.design_core.specs.Drives.{part_drives, some_set};
ghost use Rattle.design_core.specs.WellFormed.{signal_fits, part_fits, statement_fits};
ghost use Rattle.plain_values.specs.Evaluate.{item_fits};
ghost use Rattle.cycle_sim.specs.Collected.{Adds, first_named, count_named, set_drives, item_drives};

use crate::mask::Mask;
use crate::plan::signal_at;
use design_core::{CaseItem, Design, Part, Signal, Stmt};
use loc_base::{Bits, NoMemory};
use plain_sim::part_drives;
use plain_values::with_next;

/// The first of the signals that a part names, and how many they are.
fn named(part: &Part) -> (usize, usize)
    ensures few { result.0 + result.1 < 2 ^ 34 }
    ensures first { result.0 ≡ first_named part.now }
    ensures count { result.1 ≡ count_named part.now }
{
    match part {
        Part::Whole(signal) => (*signal as usize, 1),
        Part::Slice { signal, .. } => (*signal as usize, 1),
        Part::Pick { signal, .. } => (*signal as usize, 1),
        Part::Word { first, count, .. } => (*first as usize, *count as usize),
    }
}

/// The bits of a signal that a part drives, as a number, `width` of them from the lowest on.
fn part_value(signals: &[Signal], s: usize, part: &Part, width: u8) -> u128
    requires { width ≤ 128 }
    ensures { result ≡ number width (λ b. part_drives signals.now s b part.now) }
{
    let mut value: u128 = 0;
    for b in 0..width {
        value = with_next(value, usize::from(b), part_drives(signals, s, b, part));
    }
    value
}

/// The bits of a signal that a part drives.
fn part_bits(signals: &[Signal], s: usize, part: &Part) -> Bits
    requires signals { IsTrue (list_all signal_fits signals.now) }
    requires signal { s < length signals.now }
    ensures width { width_of result ≡ width_at signals.now s }
    ensures value { value_of result ≡ number (width_at signals.now s) (λ b. part_drives signals.now s b part.now) }
{
    let width = signal_at(signals, s).width;
    Bits::new(width, part_value(signals, s, part, width)).unwrap()
}

/// Adds the mask of the bits of one signal that a part drives.
fn add_signal(
    signals: &[Signal],
    s: usize,
    part: &Part,
    row: &mut Vec<Mask>,
) -> Result<(), NoMemory>
    requires signals { IsTrue (list_all signal_fits signals.now) }
    ensures { OnOk result (IsTrue (part_fits signals.now part.now) → Adds signals.now row.old.items row.new.items (λ t b. s == t && part_drives signals.now t b part.now)) }
{
    if s >= signals.len() {
        return Ok(());
    }
    let bits = part_bits(signals, s, part);
    row.push(Mask { signal: s, bits })?;
    Ok(())
}

/// Adds the masks of the bits that a part drives.
fn add_part(signals: &[Signal], part: &Part, row: &mut Vec<Mask>) -> Result<(), NoMemory>
    requires signals { IsTrue (list_all signal_fits signals.now) }
    ensures { OnOk result (IsTrue (part_fits signals.now part.now) → Adds signals.now row.old.items row.new.items (λ s b. part_drives signals.now s b part.now)) }
{
    let (first, count) = named(part);
    for k in 0..count {
        add_signal(signals, first + k, part, row)?;
    }
    Ok(())
}

/// Adds the masks of the bits that a left side drives.
pub(crate) fn add_parts(
    signals: &[Signal],
    parts: &[Part],
    row: &mut Vec<Mask>,
) -> Result<(), NoMemory>
    requires signals { IsTrue (list_all signal_fits signals.now) }
    ensures { OnOk result (IsTrue (list_all (part_fits signals.now) parts.now) → Adds signals.now row.old.items row.new.items (λ s b. list_any (part_drives signals.now s b) parts.now)) }
{
    for k in 0..parts.len() {
        let part = &parts[k];
        add_part(signals, part, row)?;
    }
    Ok(())
}

/// Whether an assignment counts: not one by `<=` where only `=` is asked for.
fn counts(only_now: bool, later: bool) -> bool
    ensures { result ≡ not (only_now && later) }
{
    !(only_now && later)
}

/// Adds the masks of the bits that a statement assigns; where `only_now` is true, of those that it assigns by `=`.
#[cycle(collect)]
pub(crate) fn add_statement(
    design: &Design,
    statement: &Stmt,
    only_now: bool,
    row: &mut Vec<Mask>,
) -> Result<(), NoMemory>
    requires signals { IsTrue (list_all signal_fits design.now.signals.items) }
    ensures { OnOk result (IsTrue (statement_fits design.now.signals.items design.now.places.items statement.now) → Adds design.now.signals.items row.old.items row.new.items (λ s b. some_set (set_drives design.now.signals.items only_now s b) statement.now)) }
{
    match statement {
        Stmt::Nothing => Ok(()),
        Stmt::Block(statements) => {
            add_statements(design, statements, only_now, row)?;
            Ok(())
        }
        Stmt::If { yes, no, .. } => {
            add_statement(design, yes, only_now, row)?;
            add_statement(design, no, only_now, row)?;
            Ok(())
        }
        Stmt::Case { items, other, .. } => {
            add_items(design, items, only_now, row)?;
            add_statement(design, other, only_now, row)?;
            Ok(())
        }
        Stmt::Set { target, later, .. } => {
            if !counts(only_now, *later) {
                return Ok(());
            }
            add_parts(&design.signals, &target.parts, row)?;
            Ok(())
        }
    }
}

/// Adds the masks of the bits that statements assign.
#[cycle(collect)]
fn add_statements(
    design: &Design,
    statements: &[Stmt],
    only_now: bool,
    row: &mut Vec<Mask>,
) -> Result<(), NoMemory>
    requires signals { IsTrue (list_all signal_fits design.now.signals.items) }
    ensures { OnOk result (IsTrue (list_all (statement_fits design.now.signals.items design.now.places.items) statements.now) → Adds design.now.signals.items row.old.items row.new.items (λ s b. list_any (some_set (set_drives design.now.signals.items only_now s b)) statements.now)) }
{
    for k in 0..statements.len() {
        let statement = &statements[k];
        add_statement(design, statement, only_now, row)?;
    }
    Ok(())
}

/// Adds the masks of the bits that the items of a case assign.
#[cycle(collect)]
fn add_items(
    design: &Design,
    items: &[CaseItem],
    only_now: bool,
    row: &mut Vec<Mask>,
) -> Result<(), NoMemory>
    requires signals { IsTrue (list_all signal_fits design.now.signals.items) }
    ensures { OnOk result ((width : ℕ) → IsTrue (list_all (item_fits design.now.signals.items design.now.places.items width) items.now) → Adds design.now.signals.items row.old.items row.new.items (λ s b. list_any (item_drives design.now.signals.items only_now s b) items.now)) }
{
    for k in 0..items.len() {
        let item = &items[k];
        add_statement(design, &item.body, only_now, row)?;
    }
    Ok(())
}
