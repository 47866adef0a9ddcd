//! The words of arrays (IEEE 1364-2005, 4.9).
ghost use Rattle.std.specs.Prelude.{◌≡◌, ◌++◌, ◌+ℤ◌, pos, map, OnOk, IfOk};
ghost use Rattle.v_hierarchy.specs.Stands.{IsRange};
ghost use Rattle.v_binding.specs.Signals.{words};
ghost use Rattle.bind_scopes.specs.Views.{numbered_of};
ghost use Rattle.bind_signals.specs.Words.{word_at};

use crate::signals::{signal_of, word_path};
use bind_scopes::{Addresses, Numbered};
use design_core::SignalKind;
use loc_base::{Items, Name, NoMemory, Span};
use std::alloc::Global;
use v_hierarchy::Bounds;

/// What the words of an array have together.
pub(crate) struct Array<'a> {
    pub(crate) path: &'a Name,
    pub(crate) signed: bool,
    pub(crate) bounds: Bounds,
    /// The number of its first word.
    pub(crate) home: u32,
    pub(crate) span: Span,
}

impl<'a> Drop for Array<'a> {
    fn drop(self) {
        let Array {
            path: _,
            signed: _,
            bounds: _,
            home: _,
            span: _,
        } = self;
    }
}

/// The address that lies so far above the least one.
fn address_of(low: i32, place: u32) -> i64
    ensures { result ≡ low +ℤ pos place }
{
    i64::from(low) + i64::from(place)
}

impl<'a> Array<'a> {
    /// The word that lies so far above the least address.
    fn word(&self, alloc: Global, addresses: Addresses, place: u32) -> Result<Numbered, NoMemory>
        requires { IsRange self.now.bounds }
        ensures { IfOk result (λ n. numbered_of n ≡ word_at self.now (addresses.low +ℤ pos place)) }
    {
        let path = word_path(alloc, self.path, address_of(addresses.low, place))?;
        Ok(Numbered {
            signal: signal_of(path, SignalKind::Reg, self.signed, self.bounds),
            home: self.home,
            span: self.span,
        })
    }

    /// One word for each address from the least one on, behind the signals before.
    #[tactic(auto, using(crate::proofs::WordLaws::words_begin))]
    pub(crate) fn add_words(
        &self,
        alloc: Global,
        addresses: Addresses,
        signals: &mut Items<Numbered>,
    ) -> Result<(), NoMemory>
        requires { IsRange self.now.bounds }
        ensures { OnOk result (map numbered_of signals.new ≡ map numbered_of signals.old ++ words (word_at self.now) addresses.count addresses.low) }
    {
        for place in 0..addresses.count {
            let word = self.word(alloc, addresses, place)?;
            signals.push(word)?;
        }
        Ok(())
    }
}
