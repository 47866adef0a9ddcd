//! The places of each suspect, in one list.
ghost use Rattle.std.specs.Prelude.{◌≡◌, ◌<◌, ◌^◌, ℕ, List, None, length, slice_index_or, IfOk};
ghost use Rattle.suspect_map.specs.Grouping.{GoesForward, IsChained, PointsWithin, RunsThrough};

use loc_base::{Items, NoMemory};
use std::alloc::Global;

/// The places of suspects, as chains through one list: from each place to the next one of its suspect.
#[derive(Drop)]
pub(crate) struct Chains {
    /// For each place, the least one of the suspect that it leads, if it leads one.
    pub heads: Vec<Option<u32>>,
    /// For each place, the next one of its suspect.
    pub next: Vec<Option<u32>>,
}

impl Chains {
    /// The chains of places of which each is given the one that leads its suspect.
    pub(crate) fn new(alloc: Global, firsts: &[Option<u32>]) -> Result<Chains, NoMemory>
        requires few { length firsts.now < 2 ^ 32 }
        requires within { PointsWithin (length firsts.now) firsts.now }
        ensures { IfOk result (λ chains. IsChained firsts.now 0 chains.heads.items chains.next.items) }
    {
        let mut heads = vec![in alloc; None; firsts.len()]?;
        let mut next = vec![in alloc; None; firsts.len()]?;
        for place in (0..firsts.len()).rev() {
            if let Some(first) = firsts[place] {
                let first = first as usize;
                next[place] = heads[first];
                heads[first] = Some(place as u32);
            }
        }
        Ok(Chains { heads, next })
    }

    /// The places of the suspect that a place leads.
    pub(crate) fn places_of(&self, alloc: Global, first: usize) -> Result<Items<u32>, NoMemory>
        requires first { first < length self.now.heads.items }
        requires heads { PointsWithin (length self.now.next.items) self.now.heads.items }
        requires forward { GoesForward self.now.next.items }
        ensures { IfOk result (λ places. (list : List ℕ) → RunsThrough self.now.next.items (slice_index_or self.now.heads.items first None) list → places ≡ list) }
    {
        let mut places = Items::new(alloc);
        let mut at = self.heads[first];
        while let Some(place) = at {
            places.push(place)?;
            at = self.next[place as usize];
        }
        Ok(places)
    }
}
