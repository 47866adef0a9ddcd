ghost use Rattle.std.specs.Prelude.{◌≡◌, ◌&&◌, ◌++◌, ℕ, [], true, length, IfOk, OnOk, IsTrue};
ghost use Rattle.std.specs.List.{list_any, list_all};
ghost use Rattle.design_core.specs.Reads.{assigns_either_way};
ghost use Rattle.design_core.specs.WellFormed.{statement_fits};
ghost use Rattle.design_bits.specs.Full.{body_fits};
ghost use Rattle.design_bits.specs.Listed.{Lists};
ghost use Rattle.design_bits.specs.Paths.{item_either_way};
ghost use Rattle.design_bits.specs.Waits.{AreFit, IsKept, Shares, shares};

use crate::full::is_full;
use crate::listed::{SignalBits, parts_bits};
use crate::shared::Shared;
use crate::waits::{Walk, before_items, meet, share};
use design_core::{CaseItem, Design, Stmt};
use loc_base::NoMemory;

/// Puts a list behind another.
fn append(all: &mut Vec<SignalBits>, own: &[SignalBits]) -> Result<(), NoMemory>
    ensures { OnOk result (all.new.items ≡ all.old.items ++ own.now) }
{
    all.extend_from_slice(own)?;
    Ok(())
}

/// Lists the bits that each path of a statement assigns, by `=` or by `<=`.
#[cycle(paths)]
pub(crate) fn list_statement(
    walk: &mut Walk,
    design: &Design,
    statement: &Stmt,
) -> Result<Vec<SignalBits>, NoMemory>
    requires walk { AreFit (length design.now.signals.items) walk.old }
    requires fits { IsTrue (statement_fits design.now.signals.items design.now.places.items statement.now) }
    ensures kept { IfOk result (λ list. IsKept (length design.now.signals.items) walk.old walk.new) }
    ensures listed { IfOk result (λ list. Lists (length design.now.signals.items) list.items (λ s b. assigns_either_way design.now.signals.items s b statement.now)) }
{
    match statement {
        Stmt::Nothing => Ok(Vec::new(walk.alloc)),
        Stmt::Block(statements) => list_block(walk, design, statements),
        Stmt::If { yes, no, .. } => {
            let first = list_statement(walk, design, yes)?;
            let second = list_statement(walk, design, no)?;
            meet(walk, &first, &second)
        }
        Stmt::Case {
            subject,
            items,
            other,
            ..
        } => {
            let last = list_statement(walk, design, other)?;
            let full = is_full(walk.alloc, &design.signals, subject, items)?;
            let start = before_items(last, other, full);
            let shared = list_items(walk, design, items, start)?;
            Ok(shared.list)
        }
        Stmt::Set { target, .. } => {
            let list = parts_bits(walk.alloc, &design.signals, &target.parts)?;
            Ok(list)
        }
    }
}

/// Lists the bits that each path of some statements in order assigns.
#[cycle(paths)]
fn list_block(
    walk: &mut Walk,
    design: &Design,
    statements: &[Stmt],
) -> Result<Vec<SignalBits>, NoMemory>
    requires walk { AreFit (length design.now.signals.items) walk.old }
    requires fits { IsTrue (list_all (statement_fits design.now.signals.items design.now.places.items) statements.now) }
    ensures kept { IfOk result (λ list. IsKept (length design.now.signals.items) walk.old walk.new) }
    ensures listed { IfOk result (λ list. Lists (length design.now.signals.items) list.items (λ s b. list_any (assigns_either_way design.now.signals.items s b) statements.now)) }
{
    let mut all = Vec::new(walk.alloc);
    for statement in statements {
        let own = list_statement(walk, design, statement)?;
        append(&mut all, &own)?;
    }
    Ok(all)
}

/// The bits that what was shared before and each item of a case assign on each path.
#[cycle(paths)]
fn list_items(
    walk: &mut Walk,
    design: &Design,
    items: &[CaseItem],
    start: Shared,
) -> Result<Shared, NoMemory>
    requires walk { AreFit (length design.now.signals.items) walk.old }
    requires fits { IsTrue (list_all (body_fits design.now.signals.items design.now.places.items) items.now) }
    ensures kept { IfOk result (λ now. IsKept (length design.now.signals.items) walk.old walk.new) }
    ensures shared { IfOk result (λ now. Shares (length design.now.signals.items) now (λ s b. shares start s b && list_all (item_either_way design.now.signals.items s b) items.now)) }
    ensures every { IfOk result (λ now. now.every ≡ true → (start.every ≡ true) × (items.now ≡ [])) }
{
    let mut shared = start;
    for item in items {
        let own = list_statement(walk, design, &item.body)?;
        shared = share(walk, shared, own)?;
    }
    Ok(shared)
}
