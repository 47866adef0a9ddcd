//! The scope of a path (IEEE 1364-2005, 18.2.3): names of scopes from the outermost on, joined by dots.
ghost use Rattle.std.specs.Prelude.{◌≡◌, ◌∷◌, ℕ, List, Some, None, IfOk, OnOk, length, map, slice_get, if◌then◌else◌};
ghost use Rattle.std.specs.Option.{option_or};
ghost use Rattle.vcd_reading.specs.Commands.{same_bytes};
ghost use Rattle.vcd_reading.specs.HeaderView.{opened_of};
ghost use Rattle.vcd_reading.specs.Paths.{bytes_behind, is_all, rest_of, IsMet};
ghost use Rattle.vcd_reading.specs.Scopes.{path_in, paths_of, place_of, with_path};

use crate::header::Opened;
use loc_base::NoMemory;
use std::alloc::Global;

/// What is kept of a path that is looked for: what is left of it behind that of each scope, where it begins with that, and the
/// first scope that has it.
#[derive(Drop)]
pub struct Met<'p> {
    pub rests: Vec<Option<&'p [u8]>>,
    pub found: Option<usize>,
}

/// What is left of bytes behind others, where they begin with those.
#[tactic(auto, using(crate::proofs::PathLaws::strip_steps))]
fn bytes_behind<'p>(bytes: &'p [u8], front: &[u8]) -> Option<&'p [u8]>
    ensures { rest_of result ≡ bytes_behind bytes.now front.now }
{
    bytes.strip_prefix(front)
}

/// What is left of them behind a dot and a name.
fn bytes_inside<'p>(bytes: &'p [u8], name: &[u8]) -> Option<&'p [u8]>
    ensures { rest_of result ≡ bytes_behind bytes.now (46 ∷ name.now) }
{
    bytes_behind(bytes_behind(bytes, b".")?, name)
}

/// Whether all of them is taken.
fn is_all(rest: Option<&[u8]>) -> bool
    ensures { result ≡ is_all (rest_of rest.entry) }
{
    match rest {
        None => false,
        Some(bytes) => bytes.is_empty(),
    }
}

/// A place that is found, or else one at hand.
fn first(found: Option<usize>, is_here: bool, place: usize) -> Option<usize>
    ensures { result ≡ option_or found (if is_here then Some place else None) }
{
    if found.is_none() && is_here {
        Some(place)
    } else {
        found
    }
}

impl<'p> Met<'p> {
    /// How many scopes there were.
    fn count(&self) -> usize
        ensures { result ≡ length self.now.rests.items }
    {
        self.rests.as_slice().len()
    }

    /// What is left of the path behind that of a scope by its number.
    fn outer(&self, around: usize) -> Option<Option<&'p [u8]>>
        ensures { result ≡ slice_get self.now.rests.items around }
    {
        self.rests.get(around).copied()
    }

    /// What is left of the path behind that of one more scope.
    #[tactic(auto, using(crate::proofs::PathLaws::path_steps))]
    fn rest(&self, path: &'p [u8], scope: &Opened<'_>) -> Option<&'p [u8]>
        ensures { (paths : List (List ℕ)) → IsMet path.now paths self.now → rest_of result ≡ bytes_behind path.now (path_in paths scope.now.around scope.now.name.now) }
    {
        let Some(around) = scope.around else {
            return bytes_behind(path, scope.name);
        };
        match self.outer(around) {
            None => bytes_behind(path, scope.name),
            Some(None) => None,
            Some(Some(rest)) => bytes_inside(rest, scope.name),
        }
    }

    /// One more scope.
    fn add(&mut self, path: &'p [u8], scope: &Opened<'_>) -> Result<(), NoMemory>
        ensures { OnOk result ((paths : List (List ℕ)) → IsMet path.now paths self.old → IsMet path.now (with_path paths (opened_of scope.now)) self.new) }
    {
        let rest = self.rest(path, scope);
        self.found = first(self.found, is_all(rest), self.count());
        self.rests.push(rest)?;
        Ok(())
    }
}

/// The first of some scopes that has a path.
pub fn scope_at(
    alloc: Global,
    scopes: &[Opened<'_>],
    path: &[u8],
) -> Result<Option<usize>, NoMemory>
    ensures { IfOk result (λ found. found ≡ place_of (same_bytes path.now) (paths_of (map opened_of scopes.now))) }
{
    let mut met = Met {
        rests: Vec::new(alloc),
        found: None,
    };
    for scope in scopes {
        met.add(path, scope)?;
    }
    Ok(met.found)
}
