//! Small lists of clauses with known trails, and mixed ones beside unit propagation by rounds over all clauses.

ghost use Rattle.std.specs.Prelude.{◌≡◌, ◌+◌, ◌<◌, ◌≤◌, length, IfOk};

mod mixed;
mod plain;

use crate::clauses::{lit, literals};
use clause_base::{Lit, has_distinct_variables, is_within};
use loc_base::NoMemory;
use std::alloc::Global;
use std::process::Abort;
use std::test::Fail;
use trail_core::Trail;

/// Adds the clause of these literals at level 0.
fn add(rt: &impl Abort, trail: &mut Trail, clause: &[Lit]) -> Result<(), NoMemory>
    requires { length trail.old.clauses < 100 }
    ensures { length trail.new.clauses ≤ length trail.old.clauses + 1 }
{
    assert!(rt; trail.level() == 0);
    assert!(rt; has_distinct_variables(clause) && is_within(clause, trail.vars()));
    trail.add_clause(clause)?;
    Ok(())
}

/// A trail over four variables with the clauses of these numbers.
fn trail_of(rt: &impl Abort, alloc: Global, clauses: &[&[i8]]) -> Result<Trail, NoMemory> {
    assert!(rt; clauses.len() < 100);
    let mut trail = Trail::new(alloc, 4)?;
    for numbers in clauses {
        let clause = literals(alloc, numbers)?;
        add(rt, &mut trail, &clause)?;
    }
    Ok(trail)
}

/// Propagates, and decides the literal, unless a clause is false or the literal has a value. Whether it was decided.
fn decide(rt: &impl Abort, trail: &mut Trail, l: Lit) -> bool {
    match trail.propagate() {
        Some(_) => false,
        None => {
            assert!(rt; 1 <= l.var && l.var <= trail.vars());
            let is_open = trail.value(l.var).is_none();
            if is_open {
                trail.decide(l);
            }
            is_open
        }
    }
}

/// Goes back to a level below the present one.
fn go_back(rt: &impl Abort, trail: &mut Trail, level: u32) {
    assert!(rt; level <= trail.level());
    trail.back_to(level);
}

/// A literal that is to be true, its level, and its reason; 0 for a decision's.
type Wanted = (i8, u32, u32);

/// Whether the literal at that place is the wanted one.
fn has(rt: &impl Abort, trail: &Trail, place: u32, wanted: &Wanted) -> bool {
    let l = lit(wanted.0);
    assert!(rt; 1 <= l.var && l.var <= trail.vars());
    let reason = trail.reason(l.var).unwrap_or(0);
    trail.at(place) == Some(l) && trail.level_of(l.var) == Some(wanted.1) && reason == wanted.2
}

/// Whether the true literals are the wanted ones, in their order.
fn shows(rt: &impl Abort, trail: &Trail, wanted: &[Wanted]) -> bool {
    let mut place = 0u32;
    for entry in wanted {
        if !has(rt, trail, place, entry) {
            return false;
        }
        place = place.wrapping_add(1);
    }
    trail.len() == place
}

/// Clauses, the literals decided in turn, the false clause that propagation names then, the level that is gone back to, and
/// the trail that is left.
struct Row<'a> {
    clauses: &'a [&'a [i8]],
    decided: &'a [i8],
    conflict: Option<u32>,
    back: u32,
    trail: &'a [Wanted],
}

/// Whether it goes as the row says.
fn goes(rt: &impl Abort, alloc: Global, row: &Row<'_>) -> Result<bool, NoMemory> {
    let mut trail = trail_of(rt, alloc, row.clauses)?;
    for n in row.decided {
        let decided = decide(rt, &mut trail, lit(*n));
        assert!(rt; decided);
    }
    let conflict = trail.propagate();
    go_back(rt, &mut trail, row.back);
    Ok(conflict == row.conflict && shows(rt, &trail, row.trail))
}

/// A chain of implications; two clauses that can't both be true; lower levels kept; the empty clause; a clause of one literal.
const ROWS: [Row<'static>; 5] = [
    Row {
        clauses: &[&[-2, 3], &[-1, 2]],
        decided: &[1],
        conflict: None,
        back: 1,
        trail: &[(1, 1, 0), (2, 1, 2), (3, 1, 1)],
    },
    Row {
        clauses: &[&[-1, -2], &[-1, 2]],
        decided: &[1],
        conflict: Some(2),
        back: 0,
        trail: &[],
    },
    Row {
        clauses: &[],
        decided: &[-1, 2, 3],
        conflict: None,
        back: 1,
        trail: &[(-1, 1, 0)],
    },
    Row {
        clauses: &[&[]],
        decided: &[],
        conflict: Some(1),
        back: 0,
        trail: &[],
    },
    Row {
        clauses: &[&[4], &[-4, -3, 1]],
        decided: &[3],
        conflict: None,
        back: 1,
        trail: &[(4, 0, 1), (3, 1, 0), (1, 1, 2)],
    },
];

#[test]
fn each_trail_is_the_one_of_its_row(rt: HostRuntime) -> Result<(), Fail> {
    for (i, row) in ROWS.iter().enumerate() {
        assert!(rt; goes(&rt, rt.alloc(), row)?, "row {i}");
    }
    Ok(())
}
