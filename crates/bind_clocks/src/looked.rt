//! What a driver or a block reads.
ghost use Rattle.std.specs.Prelude.{◌≡◌, ◌<◌, ◌≤◌, ℕ, length, IfOk, OnOk};
ghost use Rattle.design_core.specs.Mentions.{driver_mentions, block_mentions};
ghost use Rattle.bind_clocks.specs.Looks.{AreZero, Reads};

use design_bits::{BitSet, add_block_mentions, add_driver_mentions};
use design_core::{Clocked, Driver, Signal};
use loc_base::NoMemory;
use std::alloc::Global;

/// A set for the bits that a driver or a block reads, kept from one to the next, and masks of none.
#[derive(Drop)]
pub(crate) struct Looked {
    pub(crate) set: BitSet,
    pub(crate) none: Vec<u128>,
}

impl Looked {
    /// For so many signals.
    pub(crate) fn new(signals: usize, alloc: Global) -> Result<Looked, NoMemory>
        ensures zero { IfOk result (λ looked. AreZero looked.none.items) }
        ensures set { IfOk result (λ looked. length looked.set ≡ signals) }
        ensures none { IfOk result (λ looked. length looked.none.items ≡ signals) }
    {
        let set = BitSet::new(alloc, signals)?;
        let none = vec![in alloc; 0; signals]?;
        Ok(Looked { set, none })
    }

    /// Makes it large enough for so many signals.
    pub(crate) fn fit(&mut self, signals: usize, alloc: Global) -> Result<(), NoMemory>
        requires { AreZero self.old.none.items }
        ensures zero { AreZero self.new.none.items }
        ensures none { OnOk result (length self.new.none.items ≡ length self.new.set) }
        ensures long { OnOk result (signals ≤ length self.new.set) }
    {
        if self.set.len() < signals || self.none.len() != self.set.len() {
            *self = Looked::new(signals, alloc)?;
        }
        Ok(())
    }

    /// Looks at a driver.
    pub(crate) fn look_at(&mut self, signals: &[Signal], driver: &Driver) -> Result<(), NoMemory>
        requires zero { AreZero self.old.none.items }
        requires none { length self.old.none.items ≡ length self.old.set }
        ensures zero { AreZero self.new.none.items }
        ensures long { OnOk result (length self.new.set ≡ length self.old.set) }
        ensures reads { OnOk result (Reads self.new.set (λ s b. driver_mentions signals.now s b driver.now)) }
    {
        self.set.clear();
        add_driver_mentions(&mut self.set, &self.none, signals, driver)
    }

    /// Looks at a clocked block.
    pub(crate) fn look_in(&mut self, signals: &[Signal], block: &Clocked) -> Result<(), NoMemory>
        requires zero { AreZero self.old.none.items }
        requires none { length self.old.none.items ≡ length self.old.set }
        ensures zero { AreZero self.new.none.items }
        ensures long { OnOk result (length self.new.set ≡ length self.old.set) }
        ensures reads { OnOk result (Reads self.new.set (λ s b. block_mentions signals.now s b block.now)) }
    {
        self.set.clear();
        add_block_mentions(&mut self.set, &self.none, signals, block)
    }
}
