//! Unit propagation by rounds over all clauses, until none is unit or false. The value of each variable stands at the
//! variable less 1.

use clause_base::Lit;

/// What a clause asks for.
enum Look {
    Rests,
    Falsified,
    Unit(Lit),
}

/// The literal's value.
fn value_of(values: &[Option<bool>], l: Lit) -> Option<bool> {
    let place = l.var.wrapping_sub(1) as usize;
    let value = values.get(place).copied().flatten()?;
    Some(value != l.negated)
}

/// Makes the literal true.
pub(crate) fn set(values: &mut [Option<bool>], l: Lit) {
    let place = l.var.wrapping_sub(1) as usize;
    if place < values.len() {
        values[place] = Some(!l.negated);
    }
}

/// Looks at a clause.
fn look_at(values: &[Option<bool>], clause: &[Lit]) -> Look {
    let mut unassigned = None;
    for l in clause {
        match value_of(values, *l) {
            Some(true) => return Look::Rests,
            Some(false) => {}
            None if unassigned.is_some() => return Look::Rests,
            None => unassigned = Some(*l),
        }
    }
    match unassigned {
        None => Look::Falsified,
        Some(l) => Look::Unit(l),
    }
}

/// Goes over the clauses once. Whether none is false.
fn round(values: &mut [Option<bool>], clauses: &[Vec<Lit>]) -> bool {
    for clause in clauses {
        match look_at(values, clause) {
            Look::Rests => {}
            Look::Falsified => return false,
            Look::Unit(l) => set(values, l),
        }
    }
    true
}

/// Gives the variables the values that follow. Whether no clause is false then.
pub(crate) fn propagate(values: &mut [Option<bool>], clauses: &[Vec<Lit>]) -> bool {
    for _ in 0..=values.len() {
        if !round(values, clauses) {
            return false;
        }
    }
    true
}
