//! The labels of case items.

ghost use Rattle.std.specs.Prelude.{◌≡◌, ◌≢◌, ◌≤◌, IsTrue, OnOk, List, length};
ghost use Rattle.std.specs.List.{list_all, list_any};
ghost use Rattle.loc_base.specs.Bits.{width_of, value_of};
ghost use Rattle.design_core.specs.declared.signal.Signal.{Signal};
ghost use Rattle.design_core.specs.declared.place.Place.{Place};
ghost use Rattle.plain_values.specs.Evaluate.{item_fits};
ghost use Rattle.cycle_code.specs.Program.{program_of};
ghost use Rattle.cycle_code.specs.Cells.{width_in};
ghost use Rattle.cycle_code.specs.Fitting.{is_cell, IsSound};
ghost use Rattle.cycle_compile.specs.Carrying.{Tests, equal_outside, label_equal, some_equal, label_suits, item_suits, has_wild};
ghost use Rattle.cycle_compile.specs.Computing.{IsBare};

use crate::expression::{compute, place};
use crate::jump::{here, jump};
use crate::widening::bare;
use cycle_code::{Code, Instruction};
use design_core::{CaseItem, Label, Typed};
use loc_base::{Bits, NoMemory};

/// What is compared with the labels of items in place of a subject: the expression inside the unsigned widenings around it. Wild bits need
/// the subject's width, so it stays where a label has some.
pub(crate) fn compared<'a>(subject: &'a Typed, items: &[CaseItem]) -> &'a Typed
    ensures bare { IsBare subject.now result.now }
    ensures suits { (signals : List Signal) (places : List Place) → IsTrue (list_all (item_fits signals places subject.now.width) items.now)
        → IsTrue (list_all (item_suits signals places result.now.width) items.now) }
{
    if have_wild(items) {
        return subject;
    }
    bare(subject)
}

/// Whether an item has a label with wild bits.
fn have_wild(items: &[CaseItem]) -> bool
    ensures { result ≡ list_any has_wild items.now }
{
    items.iter().any(|item| has_wild(item))
}

/// Whether a label of an item has wild bits.
fn has_wild(item: &CaseItem) -> bool
    ensures { result ≡ has_wild item.now }
{
    item.labels.iter().any(|label| label.wild.value() != 0)
}

/// Pushes what goes on at `yes` where a label is equal to what the cell `subject` holds, and at `no` where none is.
pub(crate) fn test_labels<'a>(
    code: &mut Code<'a>,
    subject: u32,
    labels: &'a [Label],
    yes: u32,
    no: u32,
) -> Result<(), NoMemory>
    requires sound { IsSound (program_of code.old) }
    requires subject { IsTrue (is_cell (program_of code.old) subject) }
    requires suits { IsTrue (list_all (label_suits code.old.design.now.signals.items (width_in (program_of code.old).widths subject)) labels.now) }
    requires yes { yes ≤ length (program_of code.old).instructions }
    requires no { no ≤ length (program_of code.old).instructions }
    ensures tests { OnOk result (Tests (program_of code.old) (program_of code.new) (length (program_of code.new).instructions)
        (some_equal subject labels.now) yes no) }
    ensures sound { OnOk result (IsSound (program_of code.new)) }
{
    let mut missed = no;
    for i in (0..labels.len()).rev() {
        test_label(code, subject, &labels[i], yes, missed)?;
        missed = here(code)?;
    }
    jump(code, missed)
}

/// Pushes what goes on at `yes` where the label is equal to what the cell `subject` holds, and at `no` where it isn't.
fn test_label<'a>(
    code: &mut Code<'a>,
    subject: u32,
    label: &'a Label,
    yes: u32,
    no: u32,
) -> Result<(), NoMemory>
    requires sound { IsSound (program_of code.old) }
    requires subject { IsTrue (is_cell (program_of code.old) subject) }
    requires suits { IsTrue (label_suits code.old.design.now.signals.items (width_in (program_of code.old).widths subject) label.now) }
    requires yes { yes ≤ length (program_of code.old).instructions }
    requires no { no ≤ length (program_of code.old).instructions }
    ensures tests { OnOk result (Tests (program_of code.old) (program_of code.new) (length (program_of code.new).instructions)
        (label_equal subject label.now) yes no) }
    ensures sound { OnOk result (IsSound (program_of code.new)) }
{
    let cell = place(code, &label.value)?;
    jump(code, yes)?;
    compare(code, subject, cell, label.wild, no)?;
    compute(code, &label.value, cell)
}

/// Pushes what goes on at `no` unless two cells are equal outside the bits of a word.
fn compare(code: &mut Code, subject: u32, cell: u32, wild: Bits, no: u32) -> Result<(), NoMemory>
    requires sound { IsSound (program_of code.old) }
    requires subject { IsTrue (is_cell (program_of code.old) subject) }
    requires cell { IsTrue (is_cell (program_of code.old) cell) }
    requires cell_width { value_of wild ≢ 0 → width_in (program_of code.old).widths cell ≡ width_in (program_of code.old).widths subject }
    requires wild_width { value_of wild ≢ 0 → width_of wild ≡ width_in (program_of code.old).widths subject }
    requires no { no ≤ length (program_of code.old).instructions }
    ensures tests { OnOk result (Tests (program_of code.old) (program_of code.new) (length (program_of code.new).instructions)
        (equal_outside (value_of wild) subject cell) (length (program_of code.old).instructions) no) }
    ensures sound { OnOk result (IsSound (program_of code.new)) }
{
    if wild.value() == 0 {
        return code.push(Instruction::JumpUnlike {
            left: subject,
            right: cell,
            next: no,
        });
    }
    let wild = code.constant(wild)?;
    code.push(Instruction::JumpNoMatch {
        subject,
        label: cell,
        wild,
        next: no,
    })
}
