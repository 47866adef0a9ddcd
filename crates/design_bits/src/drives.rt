ghost use Rattle.std.specs.Prelude.{◌≡◌, OnOk};
ghost use Rattle.std.specs.List.{list_any};
ghost use Rattle.design_core.specs.Drives.{part_drives, statement_drives, driver_drives, block_drives};
ghost use Rattle.design_bits.specs.Masks.{Adds};
ghost use Rattle.design_bits.specs.Rows.{item_drives};

use crate::mask::run;
use crate::pick::may_pick;
use crate::region::{add_one, add_whole};
use crate::set::BitSet;
use design_core::{CaseItem, Clocked, Driver, Part, Signal, Stmt};
use loc_base::NoMemory;

/// Adds the bits that a part of a left side drives.
fn add_part(set: &mut BitSet, signals: &[Signal], part: &Part) -> Result<(), NoMemory>
    ensures { OnOk result (Adds set.old set.new (λ s b. part_drives signals.now s b part.now)) }
{
    match part {
        Part::Whole(signal) => add_whole(set, signals, *signal, 1),
        Part::Slice {
            signal,
            from,
            width,
        } => add_one(set, *signal, run(*from, *width)),
        Part::Pick {
            signal,
            index,
            offsets,
        } => add_one(
            set,
            *signal,
            may_pick(signals, *signal as usize, index, offsets),
        ),
        Part::Word { first, count, .. } => add_whole(set, signals, *first, *count),
    }
}

/// Adds the bits that a left side drives.
fn add_parts(set: &mut BitSet, signals: &[Signal], parts: &[Part]) -> Result<(), NoMemory>
    ensures { OnOk result (Adds set.old set.new (λ s b. list_any (part_drives signals.now s b) parts.now)) }
{
    for part in parts {
        add_part(set, signals, part)?;
    }
    Ok(())
}

/// Adds the bits that a statement assigns.
#[cycle(drives)]
fn add_statement(set: &mut BitSet, signals: &[Signal], statement: &Stmt) -> Result<(), NoMemory>
    ensures { OnOk result (Adds set.old set.new (λ s b. statement_drives signals.now s b statement.now)) }
{
    match statement {
        Stmt::Nothing => Ok(()),
        Stmt::Block(statements) => add_statements(set, signals, statements),
        Stmt::If { yes, no, .. } => {
            add_statement(set, signals, yes)?;
            add_statement(set, signals, no)
        }
        Stmt::Case { items, other, .. } => {
            add_items(set, signals, items)?;
            add_statement(set, signals, other)
        }
        Stmt::Set { target, .. } => add_parts(set, signals, &target.parts),
    }
}

#[cycle(drives)]
fn add_statements(set: &mut BitSet, signals: &[Signal], statements: &[Stmt]) -> Result<(), NoMemory>
    ensures { OnOk result (Adds set.old set.new (λ s b. list_any (statement_drives signals.now s b) statements.now)) }
{
    for statement in statements {
        add_statement(set, signals, statement)?;
    }
    Ok(())
}

#[cycle(drives)]
fn add_items(set: &mut BitSet, signals: &[Signal], items: &[CaseItem]) -> Result<(), NoMemory>
    ensures { OnOk result (Adds set.old set.new (λ s b. list_any (item_drives signals.now s b) items.now)) }
{
    for item in items {
        add_statement(set, signals, &item.body)?;
    }
    Ok(())
}

/// Adds the bits that a driver drives, of the signals that the set has a place for and below position 128.
pub fn add_driver(set: &mut BitSet, signals: &[Signal], driver: &Driver) -> Result<(), NoMemory>
    ensures { OnOk result (Adds set.old set.new (λ s b. driver_drives signals.now s b driver.now)) }
{
    match driver {
        Driver::Cont { target, .. } => add_parts(set, signals, &target.parts),
        Driver::Comb { body, .. } => add_statement(set, signals, body),
    }
}

/// Adds the bits that a clocked block drives, by its body or its reset's values.
pub fn add_block(set: &mut BitSet, signals: &[Signal], block: &Clocked) -> Result<(), NoMemory>
    ensures { OnOk result (Adds set.old set.new (λ s b. block_drives signals.now s b block.now)) }
{
    add_statement(set, signals, &block.body)?;
    match &block.reset {
        Some(reset) => add_statement(set, signals, &reset.values),
        None => Ok(()),
    }
}
