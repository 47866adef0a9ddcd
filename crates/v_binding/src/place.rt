//! Places (IEEE 1364-2005, 6.1, 7.2, 9.2 and 12.3.9).
ghost use Rattle.std.specs.Prelude.{◌≡◌, IfOk};
ghost use Rattle.v_binding.specs.Places.{place};
ghost use Rattle.v_binding.specs.Homes.{home_of};

use crate::left::Left;
use design_core::{Place, PlaceKind};
use loc_base::{Name, NoMemory};
use std::alloc::Global;
use v_syntax::Site;

/// Where an assignment stands.
#[derive(Clone, Copy)]
pub struct Home<'t> {
    /// The module of its text.
    pub module: &'t Name,
    /// The path of its scope, gate or instance.
    pub path: &'t Name,
    /// The first token of its item.
    pub item: u32,
}

/// Where a place begins, what it is, and the first place of its gate or module instance, else 0.
#[derive(Clone, Copy)]
pub struct Start {
    pub kind: PlaceKind,
    pub site: Site,
    pub copy: u32,
}

impl<'t> Home<'t> {
    /// The place of an assignment to a left side.
    pub fn place(self, alloc: Global, start: Start, left: &Left) -> Result<Place, NoMemory>
        ensures { IfOk result (λ p. p ≡ place start.kind (home_of self.entry) start.site start.copy left.now) }
    {
        let module = self.module.copied(alloc)?;
        let path = self.path.copied(alloc)?;
        Ok(Place {
            kind: start.kind,
            width: left.width,
            site: start.site.token,
            home: self.item,
            copy: start.copy,
            line: start.site.line,
            module,
            path,
            signal: left.named,
        })
    }
}
