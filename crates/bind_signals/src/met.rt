//! What is numbered so far (IEEE 1364-2005, 12.3 and 12.7).
ghost use Rattle.std.specs.Prelude.{◌≡◌, ◌++◌, [], ◌∷◌, map, OnOk, IfOk};
ghost use Rattle.v_sizes.specs.Context.{IsMeaning};
ghost use Rattle.v_hierarchy.specs.Names.{meaning_of};
ghost use Rattle.v_hierarchy.specs.Views.{entry_of};
ghost use Rattle.v_binding.specs.Signals.{scoped, fixed, fixed_all, begun, ended};
ghost use Rattle.v_binding.specs.Held.{known_of};
ghost use Rattle.v_binding.specs.Seen.{names_in};
ghost use Rattle.v_binding.specs.Standing.{EntriesStand};
ghost use Rattle.bind_scopes.specs.Views.{numbered_of, scope_of, scopes_of};
ghost use Rattle.bind_signals.specs.Scopings.{scoping, scoping_of, with_numbered, with_name};

use crate::words::Array;
use bind_scopes::{Addresses, Numbered, Scope};
use loc_base::{Items, NoMemory};
use std::alloc::Global;
use std::mem;
use v_binding::{Known, Names, Use};
use v_hierarchy::{Entry, Standing};

/// The names of a scope so far, and the scopes in it.
pub(crate) struct Own<'t> {
    pub(crate) names: Items<Known<'t>>,
    pub(crate) inside: Items<Scope<'t>>,
}

// A `drop` is written out, so that it is proved once, here.
impl<'t> Drop for Own<'t> {
    fn drop(self) {
        let Own {
            names: _,
            inside: _,
        } = self;
    }
}

/// The signals of the whole design, the scope that is walked, and what the names stand for that are seen from it while signals get
/// their numbers.
pub(crate) struct Met<'t> {
    pub(crate) alloc: Global,
    pub(crate) signals: Items<Numbered>,
    pub(crate) own: Own<'t>,
    pub(crate) seen: Names<'t>,
}

// A `drop` is written out, so that it is proved once, here.
impl<'t> Drop for Met<'t> {
    fn drop(self) {
        let Met {
            alloc: _,
            signals: _,
            own: _,
            seen: _,
        } = self;
    }
}

/// The scope without names.
fn empty_own<'t>(alloc: Global) -> Own<'t>
    ensures names { result.names ≡ [] }
    ensures inside { result.inside ≡ [] }
{
    Own {
        names: Items::new(alloc),
        inside: Items::new(alloc),
    }
}

impl<'t> Own<'t> {
    /// The scope with these names, and these scopes inside.
    fn into_scope(self) -> Scope<'t>
        ensures { scope_of result ≡ scoped (map known_of self.entry.names) (scopes_of self.entry.inside) }
    {
        let Own { names, inside } = self;
        Scope { names, inside }
    }
}

/// One name more.
#[tactic(auto, using(crate::proofs::ScopingLaws::map_pushed))]
fn add_known<'t>(known: Known<'t>, names: &mut Items<Known<'t>>) -> Result<(), NoMemory>
    ensures { OnOk result (map known_of names.new ≡ map known_of names.old ++ known_of known.entry ∷ []) }
{
    names.push(known)
}

/// What has no number: a parameter or a genvar.
fn add_fixed<'t>(entry: &Entry<'t>, names: &mut Items<Known<'t>>) -> Result<(), NoMemory>
    requires { IsMeaning (meaning_of (entry_of entry.now).standing) }
    ensures { OnOk result (map known_of names.new ≡ map known_of names.old ++ fixed (entry_of entry.now).name.name (entry_of entry.now).standing) }
{
    let name = &entry.name.name;
    match entry.standing {
        Standing::Constant { .. } => {
            add_known(
                Known::new(name, Use::Stands(entry.standing.meaning())),
                names,
            )
        }
        Standing::Genvar => add_known(Known::new(name, Use::Outside), names),
        Standing::Signal(_) | Standing::Array(_, _) | Standing::Integer => Ok(()),
    }
}

/// The scope that begins: its parameters and genvars.
fn fixed_scope<'t>(alloc: Global, entries: &[Entry<'t>]) -> Result<Own<'t>, NoMemory>
    requires { EntriesStand (map entry_of entries.now) }
    ensures names { IfOk result (λ scope. map known_of scope.names ≡ fixed_all (map entry_of entries.now)) }
    ensures inside { IfOk result (λ scope. scope.inside ≡ []) }
{
    let mut names = Items::new(alloc);
    for entry in entries {
        add_fixed(entry, &mut names)?;
    }
    Ok(Own {
        names,
        inside: Items::new(alloc),
    })
}

impl<'t> Met<'t> {
    ghost use Rattle.std.specs.Prelude.{◌≤◌, length, drop};
    ghost use Rattle.v_binding.specs.Names.{within};
    ghost use Rattle.v_hierarchy.specs.Stands.{IsRange};
    ghost use Rattle.v_binding.specs.Signals.{unnumbered, words};
    ghost use Rattle.bind_signals.specs.Words.{word_at};

    /// Nothing yet.
    pub(crate) fn new(alloc: Global) -> Met<'t>
        ensures signals { result.signals ≡ [] }
        ensures seen { names_in result.seen ≡ [] }
    {
        Met {
            alloc,
            signals: Items::new(alloc),
            own: empty_own(alloc),
            seen: Names::new(alloc),
        }
    }

    /// The number of the next signal. More than 4,294,967,295 are want of memory.
    pub(crate) fn next(&self) -> Result<u32, NoMemory>
        ensures { IfOk result (λ number. number ≡ length self.now.signals) }
    {
        match u32::try_from(self.signals.len()) {
            Ok(number) => Ok(number),
            Err(_) => Err(NoMemory),
        }
    }

    /// All signals.
    pub(crate) fn into_signals(self) -> Items<Numbered>
        ensures { result ≡ self.entry.signals }
    {
        let Met {
            alloc: _,
            signals,
            own: _,
            seen: _,
        } = self;
        signals
    }

    /// One name of the scope more.
    pub(crate) fn add_name(&mut self, known: Known<'t>) -> Result<(), NoMemory>
        ensures ok { OnOk result (scoping_of self.new ≡ with_name (known_of known.entry) (scoping_of self.old)) }
        ensures same { OnOk result (names_in self.new.seen ≡ names_in self.old.seen) }
    {
        add_known(known, &mut self.own.names)
    }

    /// One signal more, with its name.
    #[tactic(auto, using(crate::proofs::ScopingLaws::map_pushed))]
    pub(crate) fn add(&mut self, known: Known<'t>, signal: Numbered) -> Result<(), NoMemory>
        ensures ok { OnOk result (scoping_of self.new ≡ with_numbered (numbered_of signal ∷ []) (known_of known.entry) (scoping_of self.old)) }
        ensures same { OnOk result (names_in self.new.seen ≡ names_in self.old.seen) }
    {
        add_known(known, &mut self.own.names)?;
        self.signals.push(signal)
    }

    /// One signal for each word of an array more, with its name.
    pub(crate) fn add_array(
        &mut self,
        known: Known<'t>,
        array: Array<'_>,
        addresses: Addresses,
    ) -> Result<(), NoMemory>
        requires { IsRange array.bounds }
        ensures ok { OnOk result (scoping_of self.new ≡ with_numbered (words (word_at array.entry) addresses.count addresses.low) (known_of known.entry) (scoping_of self.old)) }
        ensures same { OnOk result (names_in self.new.seen ≡ names_in self.old.seen) }
    {
        array.add_words(self.alloc, addresses, &mut self.signals)?;
        add_known(known, &mut self.own.names)
    }

    /// Lets the names of a scope be seen, which hide those around it.
    fn see(&mut self, entries: &[Entry<'t>]) -> Result<(), NoMemory>
        requires { EntriesStand (map entry_of entries.now) }
        ensures ok { OnOk result (names_in self.new.seen ≡ within (map unnumbered (map entry_of entries.now)) (names_in self.old.seen)) }
        ensures same { OnOk result (scoping_of self.new ≡ scoping_of self.old) }
    {
        for entry in entries {
            let known = Known::new(&entry.name.name, Use::Stands(entry.standing.meaning()));
            self.seen.push(known)?;
        }
        Ok(())
    }

    /// Takes so many of the innermost names off.
    pub(crate) fn leave(&mut self, count: usize)
        requires { count ≤ length (names_in self.old.seen) }
        ensures ok { names_in self.new.seen ≡ drop count (names_in self.old.seen) }
        ensures same { scoping_of self.new ≡ scoping_of self.old }
    {
        for _place in 0..count {
            self.seen.pop();
        }
    }

    /// A scope begins; gives the one around it.
    pub(crate) fn begin(&mut self, entries: &[Entry<'t>]) -> Result<Own<'t>, NoMemory>
        requires { EntriesStand (map entry_of entries.now) }
        ensures around { IfOk result (λ outer. outer ≡ self.old.own) }
        ensures begun { OnOk result (scoping_of self.new ≡ begun (map entry_of entries.now) (map numbered_of self.old.signals)) }
        ensures seen { OnOk result (names_in self.new.seen ≡ within (map unnumbered (map entry_of entries.now)) (names_in self.old.seen)) }
    {
        let own = fixed_scope(self.alloc, entries)?;
        let around = mem::replace(&mut self.own, own);
        self.see(entries)?;
        Ok(around)
    }

    /// The scope ends, and becomes one of those inside the one around it.
    #[tactic(auto, using(crate::proofs::ScopingLaws::scope_ended))]
    pub(crate) fn end(&mut self, around: Own<'t>) -> Result<(), NoMemory>
        ensures ok { OnOk result (scoping_of self.new ≡ ended (scoping_of self.old) (scoping self.old.signals around.entry)) }
        ensures same { OnOk result (names_in self.new.seen ≡ names_in self.old.seen) }
    {
        let own = mem::replace(&mut self.own, around);
        self.own.inside.push(own.into_scope())
    }

    /// The scope that is walked; one without names stands in its place then.
    pub(crate) fn take_scope(&mut self) -> Scope<'t>
        ensures scope { scope_of result ≡ scoped (scoping_of self.old).names (scoping_of self.old).inside }
        ensures signals { self.new.signals ≡ self.old.signals }
        ensures seen { names_in self.new.seen ≡ names_in self.old.seen }
    {
        let own = mem::replace(&mut self.own, empty_own(self.alloc));
        own.into_scope()
    }
}
