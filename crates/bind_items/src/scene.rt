//! Where an item stands.
ghost use Rattle.std.specs.Prelude.{◌≡◌};

use bind_clocks::Frame;
use loc_base::Name;
use v_binding::Home;

/// Where an item stands: the signals and the clock of the design, and the item's home.
#[derive(Clone, Copy)]
pub struct Scene<'a> {
    pub frame: &'a Frame,
    pub home: Home<'a>,
}

impl<'a> Scene<'a> {
    /// The same, in a gate or an instance of a path.
    pub(crate) fn at(self, path: &'a Name) -> Scene<'a>
        ensures frame { result.frame.now ≡ self.entry.frame.now }
        ensures module { result.home.«module».now ≡ self.entry.home.«module».now }
        ensures path { result.home.path.now ≡ path.now }
        ensures item { result.home.item ≡ self.entry.home.item }
    {
        let home = Home {
            module: self.home.module,
            path,
            item: self.home.item,
        };
        Scene {
            frame: self.frame,
            home,
        }
    }
}
