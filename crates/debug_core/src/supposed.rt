//! The literals of a set and its values.

ghost use Rattle.std.specs.Prelude.{◌≡◌, ◌+◌, ◌<◌, ◌≤◌, All, IfOk, IfSome, OnOk, length};
ghost use Rattle.clause_base.specs.Literal.{IsWithin};
ghost use Rattle.unroller.specs.Reads.{IsUnrolled};
ghost use Rattle.unroller.specs.Unrolls.{variables_of};
ghost use Rattle.debug_core.specs.Supposed.{IsLitWithin};

use clause_base::Lit;
use design_core::{SetWithValues, Values};
use loc_base::{Items, NoMemory};
use std::alloc::Global;
use unroller::{Unrolled, UnrolledLit};

/// Where a number stands among some that ascend.
fn index_of(numbers: &[u32], number: u32) -> Option<usize> {
    numbers.binary_search(&number).ok()
}

/// A bit of one of the values' words; false where there is none.
fn bit_of(values: &Values, word: usize, bit: u8) -> bool {
    match values.rows.as_slice().get(word) {
        Some(word) => bit < 128 && (word.value() >> bit) % 2 == 1,
        None => false,
    }
}

/// The literal that is true where the bit of a column has a value in a cycle. None where it is a constant.
#[tactic(auto, using(crate::proofs::Supposing::literals))]
fn literal_at(u: &Unrolled, moment: usize, column: usize, value: bool) -> Option<Lit>
    requires kept { IsUnrolled u.now }
    requires cycle { moment < length u.now.ends }
    requires column { column < length u.now.bits }
    ensures { IfSome result (IsLitWithin (variables_of u.now)) }
{
    match u.literal(u.frees().row(moment)[column]) {
        UnrolledLit::Of(l) => Some(Lit {
            var: l.var,
            negated: l.negated == value,
        }),
        UnrolledLit::Const(_) => None,
    }
}

/// Appends the literals of a column in all cycles, where it is of a bit of one of the values' places.
#[tactic(auto, using(crate::proofs::Supposing::columns))]
fn push_column(
    literals: &mut Items<Lit>,
    u: &Unrolled,
    column: usize,
    values: &Values,
) -> Result<(), NoMemory>
    requires kept { IsUnrolled u.now }
    requires column { column < length u.now.bits }
    requires within { IsWithin (variables_of u.now) literals.old }
    ensures { OnOk result (IsWithin (variables_of u.now) literals.new) }
{
    let free = u.bits()[column];
    let Some(index) = index_of(values.places.as_slice(), free.place) else {
        return Ok(());
    };
    for moment in 0..u.ends().len() {
        let word = moment
            .saturating_mul(values.places.len())
            .saturating_add(index);
        let value = bit_of(values, word, free.bit);
        if let Some(l) = literal_at(u, moment, column, value) {
            literals.push(l)?;
        }
    }
    Ok(())
}

/// The literals of so many selectors that are true where the members are chosen and no others.
#[tactic(auto, using(crate::proofs::Supposing::columns))]
fn selectors(
    alloc: Global,
    u: &Unrolled,
    count: u32,
    members: &[u32],
) -> Result<Items<Lit>, NoMemory>
    requires few { count ≤ variables_of u.now }
    ensures { IfOk result (IsWithin (variables_of u.now)) }
{
    let mut literals = Items::new(alloc);
    for i in 0..count {
        let negated = index_of(members, i + 1).is_none();
        literals.push(Lit {
            var: i + 1,
            negated,
        })?;
    }
    Ok(literals)
}

/// The literals that are true where of so many suspects the set's are chosen, and its places have its values.
pub(crate) fn supposed(
    alloc: Global,
    u: &Unrolled,
    count: u32,
    set: &SetWithValues,
) -> Result<Items<Lit>, NoMemory>
    requires few { count ≤ variables_of u.now }
    ensures { IfOk result (IsWithin (variables_of u.now)) }
{
    // What a form keeps is known of it once it was read.
    let _variables = u.variables();
    let mut literals = selectors(alloc, u, count, set.members.as_slice())?;
    for column in 0..u.bits().len() {
        push_column(&mut literals, u, column, &set.values)?;
    }
    Ok(literals)
}
