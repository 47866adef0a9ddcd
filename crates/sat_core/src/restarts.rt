ghost use Rattle.std.specs.Prelude.{◌≡◌, ◌⊎◌};

/// How many conflicts a run has at least.
const UNIT: u64 = 100;

/// When the search goes back to level 0: runs of 100 conflicts times 1, 1, 2, 1, 1, 2, 4, .. (Luby, Sinclair, Zuckerman 1993),
/// these by Knuth's pair of numbers (The Art of Computer Programming, 7.2.2.2, exercise 80 of the fascicle).
#[derive(Drop)]
pub(crate) struct Restarts {
    counter: u64,
    factor: u64,
    /// How many conflicts are left of the run.
    left: u64,
}

impl Restarts {
    /// Before the first run.
    pub(crate) fn new() -> Restarts {
        Restarts {
            counter: 1,
            factor: 1,
            left: UNIT,
        }
    }

    /// Counts a conflict. The level to go back to: the given one, or 0 where the run has ended.
    pub(crate) fn level_from(&mut self, level: u32) -> u32
        ensures { (result ≡ level) ⊎ (result ≡ 0) }
    {
        self.left = self.left.saturating_sub(1);
        if 0 < self.left {
            return level;
        }
        self.go_on();
        0
    }

    /// Begins the next run.
    fn go_on(&mut self) {
        if self.counter & self.counter.wrapping_neg() == self.factor {
            self.counter = self.counter.saturating_add(1);
            self.factor = 1;
        } else {
            self.factor = self.factor.saturating_mul(2);
        }
        self.left = self.factor.saturating_mul(UNIT);
    }
}
