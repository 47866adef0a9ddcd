//! The changes that a cycle's values are written as (IEEE 1364-2005, 18.2.2).
ghost use Rattle.std.specs.Prelude.{◌≡◌, ◌+◌, ◌<◌, ◌≤◌, ◌^◌, ◌++◌, ◌∷◌, [], length, OnOk, Option, slice_get};
ghost use Rattle.std.specs.Option.{option_map};
ghost use Rattle.vcd_words.specs.Lines.{line_text, text_of};
ghost use Rattle.vcd_waves.specs.Lines.{known, expected, shown_in, change_line, shown_lines, change_lines};
ghost use Rattle.vcd_waves.specs.Values.{shown_of, row_of, shown_by};

use crate::variable::{Kind, Variable, variable_at};
use design_core::Checked;
use loc_base::{Bits, Bytes, NoMemory};
use vcd_words::{write_code, write_digits};

/// The bits of a value that are in a mask.
#[derive(Clone, Copy)]
pub(crate) struct Value {
    pub bits: Bits,
    pub mask: u128,
}

/// The values of one cycle.
#[derive(Clone, Copy)]
pub(crate) struct Row<'a> {
    pub samples: &'a [Bits],
    pub expected: &'a [Checked],
    pub chosen: &'a [Bits],
}

/// A word of which every bit is known.
fn known(words: &[Bits], place: usize) -> Option<Value>
    ensures { option_map shown_of result ≡ option_map known (slice_get words.now place) }
{
    match words.get(place) {
        Some(bits) => Some(Value {
            bits: *bits,
            mask: u128::MAX,
        }),
        None => None,
    }
}

/// The checked bits of an output.
fn expected(entries: &[Checked], place: usize) -> Option<Value>
    ensures { option_map shown_of result ≡ option_map expected (slice_get entries.now place) }
{
    match entries.get(place) {
        Some(checked) => Some(Value {
            bits: checked.value,
            mask: checked.mask.value(),
        }),
        None => None,
    }
}

/// What a cycle shows of a variable.
fn value_in(row: &Row<'_>, kind: Kind, place: usize) -> Option<Value>
    ensures { option_map shown_of result ≡ shown_in (row_of row.now) kind place }
{
    match kind {
        Kind::Clock => None,
        Kind::Input => known(row.samples, place),
        Kind::Output => expected(row.expected, place),
        Kind::Freed => known(row.chosen, place),
    }
}

/// The changes at one moment.
#[derive(Clone, Copy)]
pub(crate) enum Changes<'a> {
    /// Of the clock, to a bit.
    Clock(bool),
    /// Of all other variables, to the values of a cycle.
    Row(Row<'a>),
}

/// What a moment shows of a variable.
fn value_by(changes: &Changes<'_>, kind: Kind, place: usize) -> Option<Value>
    ensures { option_map shown_of result ≡ shown_by changes.now kind place }
{
    match (changes, kind) {
        (Changes::Row(row), _) => value_in(row, kind, place),
        (Changes::Clock(bit), Kind::Clock) => Some(Value {
            bits: Bits::from_bool(*bit),
            mask: u128::MAX,
        }),
        _ => None,
    }
}

/// Appends a change: the digit and the code of a value of one bit, else all digits, and the code as a word of its own.
#[tactic(auto, using(crate::proofs::LineSteps::line_steps))]
fn write_change(text: &mut Bytes, number: u64, value: Value) -> Result<(), NoMemory>
    ensures { OnOk result (text.new ≡ text.old ++ line_text (change_line number (shown_of value))) }
{
    let is_vector = value.bits.width() != 1;
    if is_vector {
        text.push(b'b')?;
    }
    write_digits(text, value.bits, value.mask)?;
    if is_vector {
        text.push(b' ')?;
    }
    write_code(text, number)?;
    text.push(b'\n')?;
    Ok(())
}

/// Appends a change, where something is shown.
fn write_shown(text: &mut Bytes, number: u64, value: Option<Value>) -> Result<(), NoMemory>
    ensures { OnOk result (text.new ≡ text.old ++ text_of (shown_lines number (option_map shown_of value))) }
{
    match value {
        Some(value) => {
            write_change(text, number, value)?;
            Ok(())
        }
        None => Ok(()),
    }
}

/// Appends the changes of all variables at one moment.
#[tactic(auto, using(crate::proofs::LineSteps::change_steps))]
pub(crate) fn write_changes(
    text: &mut Bytes,
    variables: &[Variable],
    changes: &Changes<'_>,
) -> Result<(), NoMemory>
    ensures { OnOk result (text.new ≡ text.old ++ text_of (change_lines (shown_by changes.now) 0 variables.now)) }
{
    for number in 0..variables.len() {
        let variable = variable_at(variables, number);
        let value = value_by(changes, variable.kind, variable.place);
        write_shown(text, number as u64, value)?;
    }
    Ok(())
}
