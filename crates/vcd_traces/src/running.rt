//! The levels of a variable, kept while the changes are read (IEEE 1364-2005, 18.2.2).
ghost use Rattle.std.specs.Prelude.{◌≡◌, Some};
ghost use Rattle.vcd_words.specs.Levels.{unknown_level};
ghost use Rattle.vcd_traces.specs.Running.{changed_to, before_of, first_running};

use vcd_words::Level;

/// The level after the last change, that before the first change at the time of the last one, and that time.
#[derive(Clone, Copy)]
pub struct Running {
    pub level: Level,
    pub earlier: Level,
    pub time: Option<u64>,
}

impl Running {
    /// The levels of a variable that has never changed.
    pub fn new() -> Running
        ensures { result ≡ first_running }
    {
        Running {
            level: Level::unknown(),
            earlier: Level::unknown(),
            time: None,
        }
    }

    /// The variable changes at a time.
    pub fn change(&mut self, time: Option<u64>, level: Level)
        ensures { self.new ≡ changed_to self.old time level }
    {
        if self.time != time {
            self.earlier = self.level;
            self.time = time;
        }
        self.level = level;
    }

    /// The level before the stamp at a time, where no change is later.
    pub fn before(&self, time: u64) -> Level
        ensures { result ≡ before_of self.now time }
    {
        if self.time == Some(time) {
            self.earlier
        } else {
            self.level
        }
    }
}
