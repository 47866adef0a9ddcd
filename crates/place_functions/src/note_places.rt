ghost use Rattle.std.specs.Prelude.{◌≡◌, ℕ, IfOk, OnOk};
ghost use Rattle.std.specs.List.{list_any};
ghost use Rattle.place_functions.specs.Notes.{AddsNotes, notes_have};
ghost use Rattle.place_functions.specs.Operands.{block_uses, driver_uses, is_operand, item_uses, statement_uses};

use crate::note::Note;
use crate::note_reads::note_reads;
use design_core::{CaseItem, Clocked, Design, Driver, Signal, Stmt};
use loc_base::NoMemory;
use std::alloc::Global;

/// Notes what the right side of each place of a statement reads.
#[cycle(note_places)]
fn note_statement(
    notes: &mut Vec<Note>,
    signals: &[Signal],
    statement: &Stmt,
) -> Result<(), NoMemory>
    ensures { OnOk result (AddsNotes notes.old.items notes.new.items (λ p s b. statement_uses signals.now p s b statement.now)) }
{
    match statement {
        Stmt::Nothing => Ok(()),
        Stmt::Block(statements) => note_statements(notes, signals, statements),
        Stmt::If { yes, no, .. } => {
            note_statement(notes, signals, yes)?;
            note_statement(notes, signals, no)
        }
        Stmt::Case { items, other, .. } => {
            note_items(notes, signals, items)?;
            note_statement(notes, signals, other)
        }
        Stmt::Set { place, value, .. } => note_reads(notes, *place, signals, value),
    }
}

#[cycle(note_places)]
fn note_statements(
    notes: &mut Vec<Note>,
    signals: &[Signal],
    statements: &[Stmt],
) -> Result<(), NoMemory>
    ensures { OnOk result (AddsNotes notes.old.items notes.new.items (λ p s b. list_any (statement_uses signals.now p s b) statements.now)) }
{
    for statement in statements {
        note_statement(notes, signals, statement)?;
    }
    Ok(())
}

#[cycle(note_places)]
fn note_items(notes: &mut Vec<Note>, signals: &[Signal], items: &[CaseItem]) -> Result<(), NoMemory>
    ensures { OnOk result (AddsNotes notes.old.items notes.new.items (λ p s b. list_any (item_uses signals.now p s b) items.now)) }
{
    for item in items {
        note_statement(notes, signals, &item.body)?;
    }
    Ok(())
}

/// Notes what the right side of each place of a driver reads.
fn note_driver(notes: &mut Vec<Note>, signals: &[Signal], driver: &Driver) -> Result<(), NoMemory>
    ensures { OnOk result (AddsNotes notes.old.items notes.new.items (λ p s b. driver_uses signals.now p s b driver.now)) }
{
    match driver {
        Driver::Cont {
            value,
            place: Some(place),
            ..
        } => note_reads(notes, *place, signals, value),
        Driver::Cont { place: None, .. } => Ok(()),
        Driver::Comb { body, .. } => note_statement(notes, signals, body),
    }
}

/// Notes what the right side of each place of a clocked block reads.
fn note_block(notes: &mut Vec<Note>, signals: &[Signal], block: &Clocked) -> Result<(), NoMemory>
    ensures { OnOk result (AddsNotes notes.old.items notes.new.items (λ p s b. block_uses signals.now p s b block.now)) }
{
    note_statement(notes, signals, &block.body)?;
    match &block.reset {
        Some(reset) => note_statement(notes, signals, &reset.values),
        None => Ok(()),
    }
}

fn note_drivers(
    notes: &mut Vec<Note>,
    signals: &[Signal],
    drivers: &[Driver],
) -> Result<(), NoMemory>
    ensures { OnOk result (AddsNotes notes.old.items notes.new.items (λ p s b. list_any (driver_uses signals.now p s b) drivers.now)) }
{
    for driver in drivers {
        note_driver(notes, signals, driver)?;
    }
    Ok(())
}

fn note_blocks(
    notes: &mut Vec<Note>,
    signals: &[Signal],
    blocks: &[Clocked],
) -> Result<(), NoMemory>
    ensures { OnOk result (AddsNotes notes.old.items notes.new.items (λ p s b. list_any (block_uses signals.now p s b) blocks.now)) }
{
    for block in blocks {
        note_block(notes, signals, block)?;
    }
    Ok(())
}

/// What the right side of each place of a design reads.
pub(crate) fn notes_of(alloc: Global, design: &Design) -> Result<Vec<Note>, NoMemory>
    ensures { IfOk result (λ notes. (p s b : ℕ) → notes_have notes.items p s b ≡ is_operand design.now p s b) }
{
    let mut notes = Vec::new(alloc);
    note_drivers(&mut notes, &design.signals, &design.drivers)?;
    note_blocks(&mut notes, &design.signals, &design.clocked)?;
    Ok(notes)
}
