ghost use Rattle.std.specs.Prelude.{◌≡◌, ℕ, ◌+◌, ◌-◌, ◌^◌, ◌<◌, ◌≤◌, ◌↔◌, [], ◌∷◌, ◌++◌, length, IfOk, OnOk, OnErr, IfSome, IfNone, None, slice_get, slice_index_or, IsTrue};
ghost use Rattle.std.specs.Option.{option_map};
ghost use Rattle.clause_base.specs.Literal.{IsWithin, has_distinct_variables};
ghost use Rattle.clause_base.specs.Acceptance.{numbered};
ghost use Rattle.trail_core.specs.Values.{IsVariable};
ghost use Rattle.trail_core.specs.TrailState.{TrailState, IsTrail, IsNumber, MayAdd, with_clause, values_of, level_in, reason_in, entry_of};

mod append;
mod back;
mod look;

use crate::entry::Entry;
use clause_base::{Clauses, Lit};
use loc_base::NoMemory;
pub(crate) use look::Look;
use std::alloc::Global;
use std::marker::Model;

/// The true literals in the order in which they became true, over clauses numbered from 1. Contracts see it as a trail.
#[derive(Drop)]
pub(crate) struct PlainTrail {
    clauses: Clauses,
    /// The entry of each variable, at the variable less 1.
    assigned: Vec<Option<Entry>>,
    /// The value of each variable, at the variable less 1: propagation reads it of each literal that it looks at.
    values: Vec<Option<bool>>,
    /// The true literals, in order.
    entries: Vec<Entry>,
    /// The place of each level's decision, from level 1.
    starts: Vec<u32>,
}

impl Model for PlainTrail {
    ghost use Rattle.trail_core.specs.TrailState.{TrailState};

    ghost Value = { TrailState };

    ghost use Rattle.trail_core.specs.Layout.{state_of, IsLaidOut};

    ghost view = { state_of };

    ghost invariant = { IsLaidOut };
}

impl PlainTrail {
    /// A trail with no clause and no true literal, over the variables 1 to `vars`.
    pub(crate) fn new(alloc: Global, vars: u32) -> Result<PlainTrail, NoMemory>
        ensures empty { IfOk result (λ t. t ≡ record { vars = vars; clauses = []; entries = []; level = 0 }) }
        ensures trail { IfOk result IsTrail }
    {
        let size = vars as usize;
        let assigned = no_entries(alloc, size)?;
        let values = no_values(alloc, size)?;
        let entries = Vec::with_capacity(alloc, size)?;
        let starts = Vec::with_capacity(alloc, size)?;
        Ok(PlainTrail {
            clauses: Clauses::new(alloc),
            assigned,
            values,
            entries,
            starts,
        })
    }

    /// Adds a clause of these literals and gives its number, the first being 1. Unchanged after `NoMemory`.
    pub(crate) fn add_clause(&mut self, literals: &[Lit]) -> Result<u32, NoMemory>
        requires clauses_fit { length self.old.clauses + 1 < 2 ^ 32 }
        requires distinct { IsTrue (has_distinct_variables literals.now) }
        requires within { IsWithin self.old.vars literals.now }
        requires may { MayAdd self.old literals.now }
        ensures number { IfOk result (λ n. n ≡ length self.old.clauses + 1) }
        ensures ok { OnOk result (self.new ≡ with_clause self.old literals.now) }
        ensures err { OnErr result (self.new ≡ self.old) }
        ensures trail { IsTrail self.new }
    {
        self.clauses.push(literals)?;
        Ok(self.clauses.len() as u32)
    }

    /// The literals of the clause of that number.
    pub(crate) fn clause(&self, number: u32) -> &[Lit]
        requires { IsNumber self.now.clauses number }
        ensures value { result.now ≡ numbered self.now.clauses number }
        ensures within { IsWithin self.now.vars result.now }
        ensures distinct { IsTrue (has_distinct_variables result.now) }
    {
        self.clauses.clause(number as usize - 1)
    }

    /// The number of variables.
    pub(crate) fn vars(&self) -> u32
        ensures { result ≡ self.now.vars }
    {
        self.assigned.len() as u32
    }

    /// The number of true literals.
    pub(crate) fn len(&self) -> u32
        ensures { result ≡ length self.now.entries }
    {
        self.entries.len() as u32
    }

    /// Whether no literal is true.
    pub(crate) fn is_empty(&self) -> bool
        ensures { IsTrue result ↔ (self.now.entries ≡ []) }
    {
        self.entries.is_empty()
    }

    /// The present decision level.
    pub(crate) fn level(&self) -> u32
        ensures { result ≡ self.now.level }
    {
        self.starts.len() as u32
    }

    /// The true literal at a place, counted from 0; none past the last.
    pub(crate) fn at(&self, place: u32) -> Option<Lit>
        ensures { result ≡ option_map (λ e. e.lit) (slice_get self.now.entries place) }
    {
        self.entries.get(place as usize).map(|e| e.lit)
    }

    /// The value of a variable; none where it is unassigned.
    pub(crate) fn value(&self, var: u32) -> Option<bool>
        requires { IsVariable self.now.vars var }
        ensures { result ≡ values_of self.now.entries var }
    {
        self.values[var as usize - 1]
    }

    /// The clause that made the variable's literal true, whose other literals became false before it; none for a
    /// decided or unassigned variable.
    pub(crate) fn reason(&self, var: u32) -> Option<u32>
        requires { IsVariable self.now.vars var }
        ensures { result ≡ reason_in self.now.entries var }
    {
        self.entry(var)?.reason
    }

    /// The decision level at which the variable's literal became true; none where it is unassigned.
    pub(crate) fn level_of(&self, var: u32) -> Option<u32>
        requires { IsVariable self.now.vars var }
        ensures { result ≡ level_in self.now.entries var }
    {
        self.entry(var).map(|e| e.decision_level)
    }

    /// The entry of a variable.
    pub(crate) fn entry(&self, var: u32) -> Option<Entry>
        requires { IsVariable self.now.vars var }
        ensures { result ≡ entry_of self.now.entries var }
    {
        self.assigned[var as usize - 1]
    }
}

/// So many places without an entry.
fn no_entries(alloc: Global, size: usize) -> Result<Vec<Option<Entry>>, NoMemory>
    ensures size { IfOk result (λ v. length v.items ≡ size) }
    ensures none { IfOk result (λ v. (i : ℕ) → i < length v.items → slice_index_or v.items i None ≡ None) }
{
    let table = vec![in alloc; None; size]?;
    Ok(table)
}

/// So many places without a value.
fn no_values(alloc: Global, size: usize) -> Result<Vec<Option<bool>>, NoMemory>
    ensures size { IfOk result (λ v. length v.items ≡ size) }
    ensures none { IfOk result (λ v. (i : ℕ) → i < length v.items → slice_index_or v.items i None ≡ None) }
{
    let values = vec![in alloc; None; size]?;
    Ok(values)
}
