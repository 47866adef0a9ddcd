ghost use Rattle.std.specs.Prelude.{◌≡◌, ◌<◌, ◌&&◌, ◌||◌, ◌++◌, ℕ, [], not, true, false, length, slice_index, IfOk, OnOk, IsTrue};
ghost use Rattle.std.specs.List.{list_any, list_all};
ghost use Rattle.design_core.specs.Reads.{reads, part_reads, part_assigns, statement_reads, driver_reads, assigns, is_nothing};
ghost use Rattle.design_core.specs.WellFormed.{statement_fits, driver_fits};
ghost use Rattle.design_bits.specs.Listed.{Lists, lists, undone};
ghost use Rattle.design_bits.specs.Masks.{Adds};
ghost use Rattle.design_bits.specs.Full.{body_fits};
ghost use Rattle.design_bits.specs.Rows.{label_reads};
ghost use Rattle.design_bits.specs.Paths.{sequence_reads, item_reads, item_assigns};
ghost use Rattle.design_bits.specs.Waits.{AreFit, HasGone, Shares, shares};

use crate::full::{is_full, is_nothing};
use crate::listed::{SignalBits, common, note, parts_bits, put_back};
use crate::mentions::{add_labels_reads, add_parts_reads};
use crate::reads::add_reads;
use crate::set::BitSet;
use crate::shared::Shared;
use design_core::{CaseItem, Design, Label, Part, Signal, Stmt, Typed};
use loc_base::NoMemory;
use std::alloc::Global;

/// What a walk over statements goes on with: the bits that are read before they are surely assigned, those that are surely
/// assigned so far, and a set that is empty between steps.
#[derive(Drop)]
pub(crate) struct Walk {
    pub(crate) reads: BitSet,
    pub(crate) sure: Vec<u128>,
    pub(crate) empty: BitSet,
    pub(crate) alloc: Global,
}

/// Reads an expression.
fn read(walk: &mut Walk, design: &Design, e: &Typed) -> Result<(), NoMemory>
    requires { AreFit (length design.now.signals.items) walk.old }
    ensures { OnOk result (HasGone (length design.now.signals.items) walk.old walk.new (λ s b. reads design.now.signals.items s b e.now)) }
{
    add_reads(&mut walk.reads, &walk.sure, &design.signals, e)
}

/// Reads the labels of a case item.
fn read_labels(walk: &mut Walk, design: &Design, labels: &[Label]) -> Result<(), NoMemory>
    requires { AreFit (length design.now.signals.items) walk.old }
    ensures { OnOk result (HasGone (length design.now.signals.items) walk.old walk.new (λ s b. list_any (label_reads design.now.signals.items s b) labels.now)) }
{
    add_labels_reads(&mut walk.reads, &walk.sure, &design.signals, labels)
}

/// Reads the value and the indexes of an assignment.
fn read_both(
    walk: &mut Walk,
    signals: &[Signal],
    parts: &[Part],
    value: &Typed,
) -> Result<(), NoMemory>
    requires { AreFit (length signals.now) walk.old }
    ensures { OnOk result (HasGone (length signals.now) walk.old walk.new (λ s b. reads signals.now s b value.now || list_any (part_reads signals.now s b) parts.now)) }
{
    add_reads(&mut walk.reads, &walk.sure, signals, value)?;
    add_parts_reads(&mut walk.reads, &walk.sure, signals, parts)
}

/// Reads an assignment.
pub(crate) fn read_assignment(
    walk: &mut Walk,
    design: &Design,
    parts: &[Part],
    value: &Typed,
) -> Result<(), NoMemory>
    requires { AreFit (length design.now.signals.items) walk.old }
    ensures { OnOk result (HasGone (length design.now.signals.items) walk.old walk.new (λ s b. reads design.now.signals.items s b value.now || list_any (part_reads design.now.signals.items s b) parts.now)) }
{
    read_both(walk, &design.signals, parts, value)
}

/// Goes on with the bits that a statement surely assigned.
fn go_on(
    walk: &mut Walk,
    before: &mut Vec<SignalBits>,
    all: &mut Vec<SignalBits>,
    own: &[SignalBits],
) -> Result<(), NoMemory>
    ensures sure { OnOk result (Adds walk.old.sure.items walk.new.sure.items (λ s b. lists own.now s b)) }
    ensures undone { OnOk result (undone before.new.items walk.new.sure.items ≡ undone before.old.items walk.old.sure.items) }
    ensures all { OnOk result (all.new.items ≡ all.old.items ++ own.now) }
    ensures reads { OnOk result (walk.new.reads ≡ walk.old.reads) }
    ensures empty { OnOk result (walk.new.empty ≡ walk.old.empty) }
{
    note(&mut walk.sure, before, own)?;
    all.extend_from_slice(own)?;
    Ok(())
}

/// The bits that both of two lists have.
pub(crate) fn meet(
    walk: &mut Walk,
    one: &[SignalBits],
    other: &[SignalBits],
) -> Result<Vec<SignalBits>, NoMemory>
    requires { (s : ℕ) → slice_index walk.old.empty s ≡ 0 }
    ensures sure { IfOk result (λ list. walk.new.sure.items ≡ walk.old.sure.items) }
    ensures reads { IfOk result (λ list. walk.new.reads ≡ walk.old.reads) }
    ensures long { IfOk result (λ list. length walk.new.empty ≡ length walk.old.empty) }
    ensures empty { IfOk result (λ list. (s : ℕ) → slice_index walk.new.empty s ≡ 0) }
    ensures listed { IfOk result (λ list. Lists (length walk.old.empty) list.items (λ s b. lists one.now s b && lists other.now s b)) }
{
    common(walk.alloc, &mut walk.empty, one, other)
}

/// Takes out again the bits that the statements of a block surely assigned.
fn leave(walk: &mut Walk, before: &[SignalBits])
    ensures sure { walk.new.sure.items ≡ undone before.now walk.old.sure.items }
    ensures reads { walk.new.reads ≡ walk.old.reads }
    ensures empty { walk.new.empty ≡ walk.old.empty }
{
    put_back(&mut walk.sure, before);
}

/// Nothing where an assignment is nonblocking, else its bits.
fn at_once(alloc: Global, list: Vec<SignalBits>, later: bool) -> Vec<SignalBits>
    ensures { (s b : ℕ) → lists result.items s b ≡ (not later && lists list.items s b) }
{
    if later { Vec::new(alloc) } else { list }
}

/// What is shared before the items of a case: what the statement for other values assigns, or all bits where there is none and no
/// value would take it.
pub(crate) fn before_items(last: Vec<SignalBits>, other: &Stmt, full: bool) -> Shared
    ensures every { result.every ≡ (is_nothing other.now && full) }
    ensures list { result.list ≡ last }
{
    Shared {
        every: is_nothing(other) && full,
        list: last,
    }
}

/// The bits that what was shared so far and one more list have.
pub(crate) fn share(
    walk: &mut Walk,
    shared: Shared,
    own: Vec<SignalBits>,
) -> Result<Shared, NoMemory>
    requires { (s : ℕ) → slice_index walk.old.empty s ≡ 0 }
    ensures sure { IfOk result (λ now. walk.new.sure.items ≡ walk.old.sure.items) }
    ensures reads { IfOk result (λ now. walk.new.reads ≡ walk.old.reads) }
    ensures long { IfOk result (λ now. length walk.new.empty ≡ length walk.old.empty) }
    ensures empty { IfOk result (λ now. (s : ℕ) → slice_index walk.new.empty s ≡ 0) }
    ensures every { IfOk result (λ now. now.every ≡ false) }
    ensures shared { IfOk result (λ now. Shares (length walk.old.empty) now (λ s b. shares shared s b && lists own.items s b)) }
{
    let list = if shared.every {
        own
    } else {
        meet(walk, &shared.list, &own)?
    };
    Ok(Shared { every: false, list })
}

/// Reads a statement, and lists the bits that it surely assigns by `=`.
#[cycle(waits)]
pub(crate) fn read_statement(
    walk: &mut Walk,
    design: &Design,
    statement: &Stmt,
) -> Result<Vec<SignalBits>, NoMemory>
    requires walk { AreFit (length design.now.signals.items) walk.old }
    requires fits { IsTrue (statement_fits design.now.signals.items design.now.places.items statement.now) }
    ensures gone { IfOk result (λ list. HasGone (length design.now.signals.items) walk.old walk.new (λ s b. statement_reads design.now.signals.items s b statement.now)) }
    ensures listed { IfOk result (λ list. Lists (length design.now.signals.items) list.items (λ s b. assigns design.now.signals.items s b statement.now)) }
{
    match statement {
        Stmt::Nothing => Ok(Vec::new(walk.alloc)),
        Stmt::Block(statements) => read_block(walk, design, statements),
        Stmt::If { cond, yes, no } => {
            read(walk, design, cond)?;
            let first = read_statement(walk, design, yes)?;
            let second = read_statement(walk, design, no)?;
            meet(walk, &first, &second)
        }
        Stmt::Case {
            subject,
            items,
            other,
            ..
        } => {
            read(walk, design, subject)?;
            let last = read_statement(walk, design, other)?;
            let full = is_full(walk.alloc, &design.signals, subject, items)?;
            let start = before_items(last, other, full);
            let shared = read_items(walk, design, items, start)?;
            Ok(shared.list)
        }
        Stmt::Set {
            target,
            value,
            later,
            ..
        } => {
            read_assignment(walk, design, &target.parts, value)?;
            let list = parts_bits(walk.alloc, &design.signals, &target.parts)?;
            Ok(at_once(walk.alloc, list, *later))
        }
    }
}

/// Reads statements in order: each does not read what those before it surely assigned.
#[cycle(waits)]
fn read_block(
    walk: &mut Walk,
    design: &Design,
    statements: &[Stmt],
) -> Result<Vec<SignalBits>, NoMemory>
    requires walk { AreFit (length design.now.signals.items) walk.old }
    requires fits { IsTrue (list_all (statement_fits design.now.signals.items design.now.places.items) statements.now) }
    ensures gone { IfOk result (λ list. HasGone (length design.now.signals.items) walk.old walk.new (λ s b. sequence_reads design.now.signals.items s b statements.now)) }
    ensures listed { IfOk result (λ list. Lists (length design.now.signals.items) list.items (λ s b. list_any (assigns design.now.signals.items s b) statements.now)) }
{
    let mut before = Vec::new(walk.alloc);
    let mut all = Vec::new(walk.alloc);
    for statement in statements {
        let own = read_statement(walk, design, statement)?;
        go_on(walk, &mut before, &mut all, &own)?;
    }
    leave(walk, &before);
    Ok(all)
}

/// Reads the items of a case, and gives the bits that what was shared before and each item surely assign.
#[cycle(waits)]
fn read_items(
    walk: &mut Walk,
    design: &Design,
    items: &[CaseItem],
    start: Shared,
) -> Result<Shared, NoMemory>
    requires walk { AreFit (length design.now.signals.items) walk.old }
    requires fits { IsTrue (list_all (body_fits design.now.signals.items design.now.places.items) items.now) }
    ensures gone { IfOk result (λ now. HasGone (length design.now.signals.items) walk.old walk.new (λ s b. list_any (item_reads design.now.signals.items s b) items.now)) }
    ensures shared { IfOk result (λ now. Shares (length design.now.signals.items) now (λ s b. shares start s b && list_all (item_assigns design.now.signals.items s b) items.now)) }
    ensures every { IfOk result (λ now. now.every ≡ true → (start.every ≡ true) × (items.now ≡ [])) }
{
    let mut shared = start;
    for item in items {
        read_labels(walk, design, &item.labels)?;
        let own = read_statement(walk, design, &item.body)?;
        shared = share(walk, shared, own)?;
    }
    Ok(shared)
}
