//! What a form says of its suspects: the counter's clauses, which stand first, and the selectors of each place.

ghost use Rattle.std.specs.Prelude.{◌≡◌, ◌+◌, ◌<◌, ◌≤◌, ◌^◌, IfErr, IfOk, OnOk, length};
ghost use Rattle.card_counter.specs.Places.{starts};
ghost use Rattle.clause_form.specs.Clauses.{literals_in, selector_clauses};
ghost use Rattle.clause_form.specs.Fields.{Begins, CanBegin, whole_of};
ghost use Rattle.clause_form.specs.Limits.{IsRefused};
ghost use Rattle.clause_form.specs.Named.{only_named};

use crate::error::FormErr;
use crate::kept::Kept;
use crate::selectors::{selector_rows, selectors};
use crate::sink::{Sink, literals_of};
use card_counter::counter;
use clause_base::{Clauses, Lit};
use loc_base::Items;
use std::alloc::Global;
use suspect_map::Groups;
use unroller::Unrolled;

/// What a form says of its suspects.
#[derive(Drop)]
pub(crate) struct Beginning {
    pub counter: Clauses,
    /// How many literals the counter's clauses have.
    pub count: u64,
    /// For each place, the selectors of the suspects with it.
    pub selectors: Items<Items<Lit>>,
}

impl Beginning {
    /// That of sets of at most k suspects.
    pub(crate) fn new(alloc: Global, groups: &Groups, k: u32) -> Result<Beginning, FormErr>
        requires { length groups.now + 1 + starts k (length groups.now + 1) < 2 ^ 32 }
        ensures ok { IfOk result (Begins groups.now k) }
        ensures err { IfErr result (λ e. IsRefused e (64000000 < literals_in (selector_clauses (length groups.now) k))) }
    {
        let suspects = groups.len() as u32;
        let all = selectors(alloc, suspects)?;
        let counter = counter(alloc, &all, k, suspects + 1)?;
        let count = match literals_of(&counter) {
            Some(count) => count,
            None => return Err(FormErr::Literals),
        };
        let selectors = selector_rows(alloc, groups)?;
        Ok(Beginning {
            counter,
            count,
            selectors,
        })
    }

    /// Counts the literals of the clauses of an unrolled form. No clause is made.
    fn count(&self, alloc: Global, u: &Unrolled) -> Result<(), FormErr>
        requires { CanBegin u.now self.now }
        ensures ok { OnOk result (literals_in (whole_of self.now u.now) ≤ 64000000) }
        ensures err { IfErr result (λ e. IsRefused e (64000000 < literals_in (whole_of self.now u.now))) }
    {
        let mut sink = Sink::counting(alloc, u.base(), self.count);
        sink.cycles(u, &self.selectors)?;
        let _few = sink.into_count();
        Ok(())
    }

    /// Whether the clauses of an unrolled form have no more literals than they may have. They are counted only where the definitions
    /// are too many to know.
    pub(crate) fn check(&self, alloc: Global, u: &Unrolled) -> Result<(), FormErr>
        requires { CanBegin u.now self.now }
        ensures ok { OnOk result (literals_in (whole_of self.now u.now) ≤ 64000000) }
        ensures err { IfErr result (λ e. IsRefused e (64000000 < literals_in (whole_of self.now u.now))) }
    {
        if self.is_small(u) {
            return Ok(());
        }
        self.count(alloc, u)
    }

    /// The clauses of an unrolled form, those that aren't wanted as empty ones.
    pub(crate) fn clauses(
        &self,
        alloc: Global,
        u: &Unrolled,
        named: Items<bool>,
    ) -> Result<Clauses, FormErr>
        requires { CanBegin u.now self.now }
        ensures ok { IfOk result (λ clauses. clauses ≡ only_named named (whole_of self.now u.now)) }
        ensures err { IfErr result (λ e. IsRefused e (64000000 < literals_in (whole_of self.now u.now))) }
    {
        let mut kept = Kept::new(alloc, named);
        kept.push_all(&self.counter)?;
        let mut sink = Sink::keeping(alloc, u.base(), self.count, kept);
        sink.cycles(u, &self.selectors)?;
        Ok(sink.into_clauses())
    }
}
