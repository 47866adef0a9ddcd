//! Where items stand.
ghost use Rattle.std.specs.Prelude.{◌≡◌};
ghost use Rattle.v_binding.specs.Items.{home_of};
ghost use Rattle.v_binding.specs.Homes as homes;
ghost use Rattle.bind_items.specs.Grounds.{ground_of};

use crate::Scene;
use bind_clocks::Frame;
use loc_base::Name;
use v_binding::Home;
use v_syntax::Site;

/// A scope: the signals and the clock of the design, the module of its text, and its path.
#[derive(Clone, Copy)]
pub struct Ground<'a> {
    pub frame: &'a Frame,
    pub module: &'a Name,
    pub path: &'a Name,
}

impl<'a> Ground<'a> {
    /// Where an item stands that begins at a site.
    pub fn home(self, site: Site) -> Home<'a>
        ensures { homes.home_of result ≡ home_of (ground_of self.entry) site }
    {
        Home {
            module: self.module,
            path: self.path,
            item: site.token,
        }
    }

    /// The same, with the signals and the clock of the design.
    pub fn scene(self, site: Site) -> Scene<'a>
        ensures frame { result.frame.now ≡ self.entry.frame.now }
        ensures home { homes.home_of result.home ≡ home_of (ground_of self.entry) site }
    {
        Scene {
            frame: self.frame,
            home: self.home(site),
        }
    }
}
