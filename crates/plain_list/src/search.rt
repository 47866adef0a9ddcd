ghost use Rattle.std.specs.Prelude.{◌≡◌, ◌≢◌, ◌+◌, ◌<◌, ◌≤◌, ◌^◌, ◌++◌, [], ◌∷◌, List, All, IfOk, IfSome, length, Ok, Some, None, true, false, Contains};
ghost use Rattle.design_core.specs.declared.trace.Trace.{Trace};
ghost use Rattle.design_core.specs.declared.values.SetWithValues.{SetWithValues};
ghost use Rattle.design_core.specs.TraceFits.{IsTraceOf};
ghost use Rattle.design_core.specs.Works.{IsSet};
ghost use Rattle.design_core.specs.Listing.{IsFront, IsList};
ghost use Rattle.plain_list.specs.Network.{IsNetwork};
ghost use Rattle.design_core.specs.Explained.{Explains};
ghost use Rattle.plain_list.specs.Groups.{groups_of};
ghost use Rattle.design_core.specs.Explained.{AreValuesOf};
ghost use Rattle.plain_list.specs.Search.{found_of, members_of, size_of, left_of, IsPassed, IsFresh, IsSearch};

use crate::combinations::candidates;
use crate::subsets::contains_one;
use crate::works::works;
use design_core::{Design, Members, SetWithValues, Trace};
use loc_base::NoMemory;
use std::alloc::Global;

/// The candidate with values that make every trace right, and `None` where it contains a set found before or doesn't
/// work.
fn try_candidate(
    alloc: Global,
    design: &Design,
    order: &[u32],
    traces: &[Trace],
    found: &[SetWithValues],
    candidate: &[u32],
) -> Result<Option<SetWithValues>, NoMemory>
    requires network { IsNetwork design.now order.now }
    requires traces { All (IsTraceOf design.now) traces.now }
    requires set { IsSet (groups_of design.now) candidate.now }
    ensures fresh { IfOk result (λ answer. IfSome answer (IsFresh design.now traces.now (members_of found.now) candidate.now)) }
    ensures passed { result ≡ Ok None → IsPassed design.now traces.now (members_of found.now) candidate.now }
{
    if contains_one(found, candidate) {
        return Ok(None);
    }
    match works(alloc, design, order, traces, candidate)? {
        None => Ok(None),
        Some(values) => {
            let members = Members::copy_of(alloc, candidate)?;
            Ok(Some(SetWithValues { members, values }))
        }
    }
}

/// The search for the minimal sets, one after another: each candidate in its turn, by size and then by members. The
/// first that works and contains none of those found before is minimal, since its proper subsets stand before it.
pub struct PlainSearch {
    found: Vec<SetWithValues>,
    candidates: Vec<Members>,
    /// The number of the candidate that is next.
    at: usize,
    /// No candidate has more members.
    size: u32,
}

impl PlainSearch {
    /// A search that has found nothing yet, over sets of at most `size` suspects.
    pub fn new(alloc: Global, design: &Design, size: u32) -> Result<PlainSearch, NoMemory>
        requires numbers { length design.now.places.items + 1 < 2 ^ 32 }
        requires size { size + 1 < 2 ^ 32 }
        ensures search { IfOk result (λ search. (traces : List Trace) → IsSearch design.now traces search) }
        ensures found { IfOk result (λ search. found_of search ≡ []) }
        ensures size { IfOk result (λ search. size_of search ≡ size) }
    {
        let candidates = candidates(alloc, design.places.len() as u32, size)?;
        Ok(PlainSearch {
            found: Vec::new(alloc),
            candidates,
            at: 0,
            size,
        })
    }

    /// The sets found so far, in order, with their values.
    pub fn found(&self) -> &[SetWithValues]
        ensures { result.now ≡ found_of self.now }
    {
        self.found.as_slice()
    }

    /// Tries the candidate that is next: true where it is a minimal set, which is then the last of those found.
    fn try_next(
        &mut self,
        alloc: Global,
        design: &Design,
        order: &[u32],
        traces: &[Trace],
    ) -> Result<bool, NoMemory>
        requires network { IsNetwork design.now order.now }
        requires traces { All (IsTraceOf design.now) traces.now }
        requires search { IsSearch design.now traces.now self.old }
        requires left { self.old.at < length self.old.candidates.items }
        ensures search { IsSearch design.now traces.now self.new }
        ensures size { size_of self.new ≡ size_of self.old }
        ensures more { result ≡ Ok true → (set : SetWithValues) × (found_of self.new ≡ found_of self.old ++ set ∷ []) }
        ensures same { result ≢ Ok true → found_of self.new ≡ found_of self.old }
        ensures advanced { result ≡ Ok true → (self.new.at ≡ self.old.at + 1) × (self.new.candidates.items ≡ self.old.candidates.items) }
        ensures next { result ≡ Ok false → (self.new.at ≡ self.old.at + 1) × (self.new.candidates.items ≡ self.old.candidates.items) }
    {
        let candidate = self.candidates[self.at].as_slice();
        match try_candidate(alloc, design, order, traces, &self.found, candidate)? {
            None => {
                self.at += 1;
                Ok(false)
            }
            Some(set) => {
                self.found.push(set)?;
                self.at += 1;
                Ok(true)
            }
        }
    }

    /// Looks for the next minimal set: true where one more was found, which is then the last of those found, and false
    /// where there is no more. After `NoMemory` the search can go on.
    #[tactic(auto, using(crate::proofs::Searching::search_rules))]
    pub fn next(
        &mut self,
        alloc: Global,
        design: &Design,
        order: &[u32],
        traces: &[Trace],
    ) -> Result<bool, NoMemory>
        requires network { IsNetwork design.now order.now }
        requires traces { All (IsTraceOf design.now) traces.now }
        requires search { IsSearch design.now traces.now self.old }
        ensures search { IsSearch design.now traces.now self.new }
        ensures size { size_of self.new ≡ size_of self.old }
        ensures more { result ≡ Ok true → (set : SetWithValues) × (found_of self.new ≡ found_of self.old ++ set ∷ []) }
        ensures same { result ≢ Ok true → found_of self.new ≡ found_of self.old }
        ensures left { result ≡ Ok true → left_of self.new < left_of self.old }
        ensures list { result ≡ Ok false → IsList design.now traces.now (groups_of design.now) (size_of self.new) (members_of (found_of self.new)) }
        ensures front { IsFront design.now traces.now (groups_of design.now) (size_of self.new) (members_of (found_of self.new)) }
        ensures values { All (λ set. Explains design.now traces.now (groups_of design.now) set.members set.values) (found_of self.new) }
        ensures shapes { All (λ set. AreValuesOf design.now traces.now (groups_of design.now) set.members set.values) (found_of self.new) }
    {
        while self.at < self.candidates.len() {
            if self.try_next(alloc, design, order, traces)? {
                return Ok(true);
            }
        }
        Ok(false)
    }
}

// A `drop` is written out, so that it is proved once, here: a derived one is proved again by each crate that lets a value go.
impl Drop for PlainSearch {
    fn drop(self) {
        let PlainSearch {
            found: _,
            candidates: _,
            at: _,
            size: _,
        } = self;
    }
}
