ghost use Rattle.std.specs.Prelude.{◌≡◌, ◌+◌, ◌<◌};

use std::marker::Model;

/// How many clauses a search may still learn. Contracts see it as that number.
#[derive(Clone, Copy, Debug)]
pub struct Budget {
    units: u32,
}

impl Model for Budget {
    ghost use Rattle.std.specs.Prelude.{ℕ};

    ghost Value = { ℕ };

    ghost view = { λ b. b.units };

    ghost inverse = { λ n. record { units = n } };
}

impl Budget {
    /// A budget of `n` units.
    pub fn new(n: u32) -> Budget
        ensures { result ≡ n }
    {
        Budget { units: n }
    }

    /// The units that are left.
    pub fn left(&self) -> u32
        ensures { result ≡ self.now }
    {
        self.units
    }

    /// Takes a unit.
    pub(crate) fn take(&mut self)
        requires { 0 < self.old }
        ensures { self.new + 1 ≡ self.old }
    {
        self.units -= 1;
    }
}
