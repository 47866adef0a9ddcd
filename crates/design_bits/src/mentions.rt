ghost use Rattle.std.specs.Prelude.{◌≡◌, ◌<◌, ◌&&◌, ◌||◌, ◌==◌, ℕ, not, length, OnOk};
ghost use Rattle.std.specs.List.{list_any};
ghost use Rattle.design_core.specs.Reads.{reads, part_reads};
ghost use Rattle.design_core.specs.Mentions.{statement_mentions, driver_mentions, reset_mentions, block_mentions};
ghost use Rattle.design_bits.specs.Masks.{Adds, has};
ghost use Rattle.design_bits.specs.Rows.{label_reads, item_mentions};

use crate::mask::run;
use crate::reads::add_reads;
use crate::region::{Region, add_region};
use crate::set::BitSet;
use design_core::{CaseItem, Clocked, Driver, Label, Part, Reset, Signal, Stmt};
use loc_base::NoMemory;

/// Adds the bits that a part of a left side reads, but for those of another set.
fn add_part_reads(
    set: &mut BitSet,
    sure: &[u128],
    signals: &[Signal],
    part: &Part,
) -> Result<(), NoMemory>
    requires { length sure.now ≡ length set.old }
    ensures { OnOk result (Adds set.old set.new (λ s b. part_reads signals.now s b part.now && not (has sure.now s b))) }
{
    match part {
        Part::Whole(_) | Part::Slice { .. } => Ok(()),
        Part::Pick { index, .. } => add_reads(set, sure, signals, index),
        Part::Word { index, .. } => add_reads(set, sure, signals, index),
    }
}

/// Adds the bits that a left side reads, but for those of another set.
pub(crate) fn add_parts_reads(
    set: &mut BitSet,
    sure: &[u128],
    signals: &[Signal],
    parts: &[Part],
) -> Result<(), NoMemory>
    requires { length sure.now ≡ length set.old }
    ensures { OnOk result (Adds set.old set.new (λ s b. list_any (part_reads signals.now s b) parts.now && not (has sure.now s b))) }
{
    for part in parts {
        add_part_reads(set, sure, signals, part)?;
    }
    Ok(())
}

/// Adds the bits that the labels of a case item read, but for those of another set.
pub(crate) fn add_labels_reads(
    set: &mut BitSet,
    sure: &[u128],
    signals: &[Signal],
    labels: &[Label],
) -> Result<(), NoMemory>
    requires { length sure.now ≡ length set.old }
    ensures { OnOk result (Adds set.old set.new (λ s b. list_any (label_reads signals.now s b) labels.now && not (has sure.now s b))) }
{
    for label in labels {
        add_reads(set, sure, signals, &label.value)?;
    }
    Ok(())
}

/// Adds the bits that a statement reads in some expression, but for those of another set.
#[cycle(mentions)]
fn add_statement(
    set: &mut BitSet,
    sure: &[u128],
    signals: &[Signal],
    statement: &Stmt,
) -> Result<(), NoMemory>
    requires { length sure.now ≡ length set.old }
    ensures { OnOk result (Adds set.old set.new (λ s b. statement_mentions signals.now s b statement.now && not (has sure.now s b))) }
{
    match statement {
        Stmt::Nothing => Ok(()),
        Stmt::Block(statements) => add_statements(set, sure, signals, statements),
        Stmt::If { cond, yes, no } => {
            add_reads(set, sure, signals, cond)?;
            add_statement(set, sure, signals, yes)?;
            add_statement(set, sure, signals, no)
        }
        Stmt::Case {
            subject,
            items,
            other,
            ..
        } => {
            add_reads(set, sure, signals, subject)?;
            add_items(set, sure, signals, items)?;
            add_statement(set, sure, signals, other)
        }
        Stmt::Set { target, value, .. } => {
            add_reads(set, sure, signals, value)?;
            add_parts_reads(set, sure, signals, &target.parts)
        }
    }
}

#[cycle(mentions)]
fn add_statements(
    set: &mut BitSet,
    sure: &[u128],
    signals: &[Signal],
    statements: &[Stmt],
) -> Result<(), NoMemory>
    requires { length sure.now ≡ length set.old }
    ensures { OnOk result (Adds set.old set.new (λ s b. list_any (statement_mentions signals.now s b) statements.now && not (has sure.now s b))) }
{
    for statement in statements {
        add_statement(set, sure, signals, statement)?;
    }
    Ok(())
}

#[cycle(mentions)]
fn add_items(
    set: &mut BitSet,
    sure: &[u128],
    signals: &[Signal],
    items: &[CaseItem],
) -> Result<(), NoMemory>
    requires { length sure.now ≡ length set.old }
    ensures { OnOk result (Adds set.old set.new (λ s b. list_any (item_mentions signals.now s b) items.now && not (has sure.now s b))) }
{
    for item in items {
        add_item(set, sure, signals, item)?;
    }
    Ok(())
}

#[cycle(mentions)]
fn add_item(
    set: &mut BitSet,
    sure: &[u128],
    signals: &[Signal],
    item: &CaseItem,
) -> Result<(), NoMemory>
    requires { length sure.now ≡ length set.old }
    ensures { OnOk result (Adds set.old set.new (λ s b. item_mentions signals.now s b item.now && not (has sure.now s b))) }
{
    add_labels_reads(set, sure, signals, &item.labels)?;
    add_statement(set, sure, signals, &item.body)
}

/// Adds the bits that a driver reads anywhere, but for those of another set.
pub fn add_driver_mentions(
    set: &mut BitSet,
    but: &[u128],
    signals: &[Signal],
    driver: &Driver,
) -> Result<(), NoMemory>
    requires { length but.now ≡ length set.old }
    ensures { OnOk result (Adds set.old set.new (λ s b. driver_mentions signals.now s b driver.now && not (has but.now s b))) }
{
    match driver {
        Driver::Cont { target, value, .. } => {
            add_reads(set, but, signals, value)?;
            add_parts_reads(set, but, signals, &target.parts)
        }
        Driver::Comb { body, .. } => add_statement(set, but, signals, body),
    }
}

/// Adds the bits that a reset reads, but for those of another set.
fn add_reset_mentions(
    set: &mut BitSet,
    but: &[u128],
    signals: &[Signal],
    reset: &Reset,
) -> Result<(), NoMemory>
    requires { length but.now ≡ length set.old }
    ensures { OnOk result (Adds set.old set.new (λ s b. reset_mentions signals.now s b reset.now && not (has but.now s b))) }
{
    add_region(set, but, Region::of(reset.signal, run(0, 1)))?;
    add_statement(set, but, signals, &reset.values)
}

/// Adds the bits that a clocked block reads anywhere, by its body or its reset, but for those of another set.
pub fn add_block_mentions(
    set: &mut BitSet,
    but: &[u128],
    signals: &[Signal],
    block: &Clocked,
) -> Result<(), NoMemory>
    requires { length but.now ≡ length set.old }
    ensures { OnOk result (Adds set.old set.new (λ s b. block_mentions signals.now s b block.now && not (has but.now s b))) }
{
    add_statement(set, but, signals, &block.body)?;
    match &block.reset {
        Some(reset) => add_reset_mentions(set, but, signals, reset),
        None => Ok(()),
    }
}
