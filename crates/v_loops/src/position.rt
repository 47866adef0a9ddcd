ghost use Rattle.std.specs.Prelude.{◌≡◌, map};
ghost use Rattle.v_hierarchy.specs.Views.{entry_of};
ghost use Rattle.v_scopes.specs.Around.{names_in};

use loc_base::Items;
use std::alloc::Global;
use v_hierarchy::{Entry, Left};
use v_scopes::Scopes;

/// Where elaboration stands in a module: the scopes around it, and what is left of the counts of the whole design.
pub struct Position<'t> {
    pub alloc: Global,
    pub scopes: Scopes<'t>,
    pub left: Left,
}

// A `drop` is written out, so that it is proved once, here.
impl<'t> Drop for Position<'t> {
    fn drop(self) {
        let Position {
            alloc: _,
            scopes: _,
            left: _,
        } = self;
    }
}

impl<'t> Position<'t> {
    /// The names of the innermost scope, where no more is wanted of the others.
    pub fn into_names(self) -> Items<Entry<'t>>
        ensures { map entry_of result ≡ names_in self.entry.scopes }
    {
        let Position {
            alloc: _,
            scopes,
            left: _,
        } = self;
        scopes.into_names()
    }
}
