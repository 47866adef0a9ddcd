//! Statements.

ghost use Rattle.std.specs.Prelude.{◌≤◌, IsTrue, OnOk, length};
ghost use Rattle.std.specs.List.{list_all};
ghost use Rattle.design_core.specs.WellFormed.{statement_fits};
ghost use Rattle.cycle_code.specs.Program.{program_of};
ghost use Rattle.cycle_code.specs.Cells.{width_in};
ghost use Rattle.cycle_code.specs.Fitting.{is_cell, IsSound};
ghost use Rattle.cycle_compile.specs.Compiling.{Runs};
ghost use Rattle.cycle_compile.specs.Carrying.{Carries, list_left, item_suits, TakesItem, TakesFirst};

use crate::assignment::assign;
use crate::case::{compared, test_labels};
use crate::expression::{compute, decide, place};
use crate::jump::{here, jump};
use cycle_code::Code;
use design_core::{CaseItem, Stmt};
use loc_base::NoMemory;

/// Pushes what carries out a statement.
#[cycle(carry)]
pub fn carry_out<'a>(code: &mut Code<'a>, statement: &'a Stmt) -> Result<(), NoMemory>
    requires sound { IsSound (program_of code.old) }
    requires fits { IsTrue (statement_fits code.old.design.now.signals.items code.old.design.now.places.items statement.now) }
    ensures runs { OnOk result (Runs (program_of code.old) (program_of code.new) statement.now) }
    ensures sound { OnOk result (IsSound (program_of code.new)) }
{
    match statement {
        Stmt::Nothing => Ok(()),
        Stmt::Block(statements) => carry_out_all(code, statements),
        Stmt::If { cond, yes, no } => {
            let next = here(code)?;
            carry_out(code, no)?;
            let otherwise = here(code)?;
            jump(code, next)?;
            carry_out(code, yes)?;
            let then = here(code)?;
            decide(code, cond, then, otherwise)
        }
        Stmt::Case {
            subject,
            items,
            other,
            ..
        } => {
            let subject = compared(subject, items);
            let cell = place(code, subject)?;
            let next = here(code)?;
            carry_out(code, other)?;
            carry_out_items(code, cell, items, next)?;
            compute(code, subject, cell)
        }
        Stmt::Set {
            place,
            target,
            value,
            later,
        } => assign(code, *place, target, value, *later),
    }
}

/// Pushes what carries out statements in order.
#[cycle(carry)]
fn carry_out_all<'a>(code: &mut Code<'a>, statements: &'a [Stmt]) -> Result<(), NoMemory>
    requires sound { IsSound (program_of code.old) }
    requires fits { IsTrue (list_all (statement_fits code.old.design.now.signals.items code.old.design.now.places.items) statements.now) }
    ensures carries { OnOk result (Carries (program_of code.old) (program_of code.new) (list_left statements.now)) }
    ensures sound { OnOk result (IsSound (program_of code.new)) }
{
    for i in (0..statements.len()).rev() {
        carry_out(code, &statements[i])?;
    }
    Ok(())
}

/// Pushes what carries out the first item that has a label equal to what the cell `subject` holds, and then goes on at `next`.
#[cycle(carry)]
fn carry_out_items<'a>(
    code: &mut Code<'a>,
    subject: u32,
    items: &'a [CaseItem],
    next: u32,
) -> Result<(), NoMemory>
    requires sound { IsSound (program_of code.old) }
    requires subject { IsTrue (is_cell (program_of code.old) subject) }
    requires items { IsTrue (list_all (item_suits code.old.design.now.signals.items code.old.design.now.places.items
        (width_in (program_of code.old).widths subject)) items.now) }
    requires next { next ≤ length (program_of code.old).instructions }
    ensures takes { OnOk result (TakesFirst (program_of code.old) (program_of code.new) next subject items.now) }
    ensures sound { OnOk result (IsSound (program_of code.new)) }
{
    for i in (0..items.len()).rev() {
        carry_out_item(code, subject, &items[i], next)?;
    }
    Ok(())
}

/// Pushes what carries out an item that has a label equal to what the cell `subject` holds, and then goes on at `next`.
#[cycle(carry)]
fn carry_out_item<'a>(
    code: &mut Code<'a>,
    subject: u32,
    item: &'a CaseItem,
    next: u32,
) -> Result<(), NoMemory>
    requires sound { IsSound (program_of code.old) }
    requires subject { IsTrue (is_cell (program_of code.old) subject) }
    requires item { IsTrue (item_suits code.old.design.now.signals.items code.old.design.now.places.items
        (width_in (program_of code.old).widths subject) item.now) }
    requires next { next ≤ length (program_of code.old).instructions }
    ensures takes { OnOk result (TakesItem (program_of code.old) (program_of code.new) next subject item.now) }
    ensures sound { OnOk result (IsSound (program_of code.new)) }
{
    let missed = here(code)?;
    jump(code, next)?;
    carry_out(code, &item.body)?;
    let taken = here(code)?;
    test_labels(code, subject, &item.labels, taken, missed)
}
