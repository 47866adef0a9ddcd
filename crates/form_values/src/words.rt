//! The words that a model gives to places in a cycle.

ghost use Rattle.std.specs.Prelude.{◌≡◌, ◌++◌, ◌<◌, All, OnOk, length, map};
ghost use Rattle.loc_base.specs.Bits.{value_of, width_of};
ghost use Rattle.unroller.specs.Reads.{IsUnrolled, free_at};
ghost use Rattle.form_laws.specs.Models.{value_in};
ghost use Rattle.form_values.specs.ModelValues.{assignment_of};
ghost use Rattle.form_values.specs.Places.{AreColumns, columns_number};

use loc_base::{Bits, NoMemory, Rows};
use unroller::{Unrolled, UnrolledLit};

/// The truth value of a variable in a model, whose values stand at the variable less 1.
fn variable_in(model: &[bool], var: u32) -> bool
    ensures { result ≡ assignment_of model.now var }
{
    match model.get((var as usize).saturating_sub(1)) {
        Some(value) => *value,
        None => false,
    }
}

/// The truth value of a bit of the form.
fn value_in(model: &[bool], bit: UnrolledLit) -> bool
    ensures { result ≡ value_in (assignment_of model.now) bit }
{
    match bit {
        UnrolledLit::Const(value) => value,
        UnrolledLit::Of(lit) => {
            let value = variable_in(model, lit.var);
            if lit.negated { !value } else { value }
        }
    }
}

/// The truth value of the literal of a column in a cycle, by its number among all cycles.
#[tactic(auto, using(crate::proofs::WordSteps::bits))]
fn bit_in(model: &[bool], u: &Unrolled, moment: usize, column: usize) -> bool
    requires kept { IsUnrolled u.now }
    requires cycle { moment < length u.now.ends }
    requires column { column < length u.now.bits }
    ensures { result ≡ value_in (assignment_of model.now) (free_at u.now moment column) }
{
    value_in(model, u.literal(u.frees().row(moment)[column]))
}

/// The word of which the literals of columns are the bits in a cycle.
#[tactic(auto, using(crate::proofs::WordSteps::words))]
fn word_in(model: &[bool], u: &Unrolled, moment: usize, columns: &[usize]) -> Bits
    requires kept { IsUnrolled u.now }
    requires cycle { moment < length u.now.ends }
    requires columns { AreColumns u.now columns.now }
    ensures width { width_of result ≡ length columns.now }
    ensures value { value_of result ≡ columns_number (assignment_of model.now) u.now moment columns.now }
{
    let width = columns.len() as u8;
    let mut value: u128 = 0;
    for bit in 0..width {
        if bit_in(model, u, moment, columns[usize::from(bit)]) {
            value += 1 << bit;
        }
    }
    match Bits::new(width, value) {
        Some(word) => word,
        None => unreachable!(),
    }
}

/// Appends the words of some places in a cycle.
#[tactic(auto, using(crate::proofs::WordSteps::rows))]
pub(crate) fn push_row(
    rows: &mut Vec<Bits>,
    model: &[bool],
    u: &Unrolled,
    columns: &Rows<usize>,
    moment: usize,
) -> Result<(), NoMemory>
    requires kept { IsUnrolled u.now }
    requires cycle { moment < length u.now.ends }
    requires columns { All (AreColumns u.now) columns.now }
    ensures widths { OnOk result (map width_of rows.new.items ≡ map width_of rows.old.items ++ map length columns.now) }
    ensures numbers { OnOk result (map value_of rows.new.items ≡ map value_of rows.old.items ++ map (columns_number (assignment_of model.now) u.now moment) columns.now) }
{
    for i in 0..columns.len() {
        rows.push(word_in(model, u, moment, columns.row(i)))?;
    }
    Ok(())
}
