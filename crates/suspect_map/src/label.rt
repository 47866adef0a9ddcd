ghost use Rattle.std.specs.Prelude.{◌≡◌, IfOk};
ghost use Rattle.suspect_map.specs.Groups.{label_of};

use design_core::Place;
use loc_base::{Name, NoMemory};
use std::alloc::Global;

/// What is printed for a suspect, by a place of it.
#[derive(Clone, Copy)]
pub(crate) enum Label {
    /// The module whose text the place stands in.
    Module,
    /// The path of the gate or instance.
    Path,
}

impl Label {
    /// The label of the suspect of a place.
    pub(crate) fn of(self, alloc: Global, place: &Place) -> Result<Name, NoMemory>
        ensures { IfOk result (λ name. name ≡ label_of self place.now) }
    {
        match self {
            Label::Module => place.module.copied(alloc),
            Label::Path => place.path.copied(alloc),
        }
    }
}
