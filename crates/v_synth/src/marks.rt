//! Which signals a clocked block assigns by `<=` (IEEE 1364-2005, 9.2.2), as a mark for each signal.
ghost use Rattle.std.specs.Prelude.{◌≡◌};
ghost use Rattle.std.specs.List.{list_any};
ghost use Rattle.design_core.specs.Drives.{assigns_later, block_assigns_later, is_among, part_names};
ghost use Rattle.v_synth.specs.Rows.{Marked, item_assigns_later};

use design_core::{CaseItem, Clocked, Part, Stmt};

/// Puts a mark at each of so many signals from one on, of those that there are.
#[tactic(auto, using(crate::proofs::MarkSteps::run_steps))]
fn mark_run(marks: &mut [bool], mark: bool, first: u32, count: u32)
    ensures { Marked mark marks.old marks.new (is_among first count) }
{
    let end = (first as usize + count as usize).min(marks.len());
    for s in first as usize..end {
        marks[s] = mark;
    }
}

/// Puts a mark at each signal that a part of a left side names.
#[tactic(auto, using(crate::proofs::MarkSteps::part_steps))]
fn mark_part(marks: &mut [bool], mark: bool, part: &Part)
    ensures { Marked mark marks.old marks.new (λ s. part_names s part.now) }
{
    match part {
        Part::Whole(signal) => mark_run(marks, mark, *signal, 1),
        Part::Slice { signal, .. } => mark_run(marks, mark, *signal, 1),
        Part::Pick { signal, .. } => mark_run(marks, mark, *signal, 1),
        Part::Word { first, count, .. } => mark_run(marks, mark, *first, *count),
    }
}

/// Puts a mark at each signal that a left side names.
#[tactic(auto, using(crate::proofs::MarkSteps::list_steps))]
fn mark_parts(marks: &mut [bool], mark: bool, parts: &[Part])
    ensures { Marked mark marks.old marks.new (λ s. list_any (part_names s) parts.now) }
{
    for part in parts {
        mark_part(marks, mark, part);
    }
}

/// Puts a mark at each signal that a statement assigns by `<=`.
#[cycle(marks)]
fn mark_statement(marks: &mut [bool], mark: bool, statement: &Stmt)
    ensures { Marked mark marks.old marks.new (λ s. assigns_later s statement.now) }
{
    match statement {
        Stmt::Nothing => {}
        Stmt::Block(statements) => mark_statements(marks, mark, statements),
        Stmt::If { yes, no, .. } => {
            mark_statement(marks, mark, yes);
            mark_statement(marks, mark, no);
        }
        Stmt::Case { items, other, .. } => {
            mark_items(marks, mark, items);
            mark_statement(marks, mark, other);
        }
        Stmt::Set { target, later, .. } => {
            if *later {
                mark_parts(marks, mark, &target.parts);
            }
        }
    }
}

#[cycle(marks)]
fn mark_statements(marks: &mut [bool], mark: bool, statements: &[Stmt])
    ensures { Marked mark marks.old marks.new (λ s. list_any (assigns_later s) statements.now) }
{
    for statement in statements {
        mark_statement(marks, mark, statement);
    }
}

#[cycle(marks)]
fn mark_items(marks: &mut [bool], mark: bool, items: &[CaseItem])
    ensures { Marked mark marks.old marks.new (λ s. list_any (item_assigns_later s) items.now) }
{
    for item in items {
        mark_statement(marks, mark, &item.body);
    }
}

/// Puts a mark at each signal that a clocked block assigns by `<=`.
pub(crate) fn mark_block(marks: &mut [bool], mark: bool, block: &Clocked)
    ensures { Marked mark marks.old marks.new (λ s. block_assigns_later s block.now) }
{
    mark_statement(marks, mark, &block.body);
    if let Some(reset) = &block.reset {
        mark_statement(marks, mark, &reset.values);
    }
}
