ghost use Rattle.std.specs.Prelude.{◌≡◌, ◌<◌, ℕ, length, replicate, slice_index, IfOk, OnOk, IsTrue};
ghost use Rattle.design_core.specs.Reads.{driver_reads};
ghost use Rattle.design_core.specs.WellFormed.{driver_fits};
ghost use Rattle.design_bits.specs.Masks.{has};
ghost use Rattle.design_bits.specs.Paths.{block_assigns};
ghost use Rattle.design_bits.specs.Waits.{AreFit, HasAssigned, HasGone, IsIdle};

use crate::listed::add_listed;
use crate::paths::list_statement;
use crate::set::BitSet;
use crate::waits::{Walk, read_assignment, read_statement};
use design_core::{Design, Driver};
use loc_base::NoMemory;
use std::alloc::Global;
use std::marker::Model;

/// The bits that a driver waits for, or that it assigns on each path. Contracts see it as the list of their masks, one for each
/// signal.
pub struct DriverBits {
    walk: Walk,
}

// A `drop` is written out, so that it is proved once, here: a derived one is proved again by each crate that lets a value go.
impl Drop for DriverBits {
    fn drop(self) {
        let DriverBits { walk: _ } = self;
    }
}

impl Model for DriverBits {
    ghost use Rattle.std.specs.Prelude.{ℕ, List};
    ghost use Rattle.design_bits.specs.Waits.{IsIdle};

    ghost Value = { List ℕ };

    ghost view = { λ r. r.walk.reads };

    ghost invariant = { λ r. IsIdle r.walk };
}

/// A walk that has read nothing.
fn idle(alloc: Global, signals: usize) -> Result<Walk, NoMemory>
    ensures idle { IfOk result IsIdle }
    ensures none { IfOk result (λ walk. walk.reads ≡ replicate signals 0) }
{
    Ok(Walk {
        reads: BitSet::new(alloc, signals)?,
        sure: vec![in alloc; 0; signals]?,
        empty: BitSet::new(alloc, signals)?,
        alloc,
    })
}

/// Reads a driver.
fn read_driver(walk: &mut Walk, design: &Design, driver: &Driver) -> Result<(), NoMemory>
    requires walk { AreFit (length design.now.signals.items) walk.old }
    requires fits { IsTrue (driver_fits design.now.signals.items design.now.places.items driver.now) }
    ensures { OnOk result (HasGone (length design.now.signals.items) walk.old walk.new (λ s b. driver_reads design.now.signals.items s b driver.now)) }
{
    match driver {
        Driver::Cont { target, value, .. } => {
            read_assignment(walk, design, &target.parts, value)
        }
        Driver::Comb { body, .. } => {
            read_statement(walk, design, body)?;
            Ok(())
        }
    }
}

/// Adds the bits that each path of a combinational block assigns.
fn assign_driver(walk: &mut Walk, design: &Design, driver: &Driver) -> Result<(), NoMemory>
    requires walk { AreFit (length design.now.signals.items) walk.old }
    requires fits { IsTrue (driver_fits design.now.signals.items design.now.places.items driver.now) }
    ensures { OnOk result (HasAssigned (length design.now.signals.items) walk.old walk.new (λ s b. block_assigns design.now.signals.items s b driver.now)) }
{
    match driver {
        Driver::Cont { .. } => Ok(()),
        Driver::Comb { body, .. } => {
            let list = list_statement(walk, design, body)?;
            add_listed(&mut walk.reads, &list)
        }
    }
}

impl DriverBits {
    /// No bit of any of so many signals.
    pub fn new(alloc: Global, signals: usize) -> Result<DriverBits, NoMemory>
        ensures { IfOk result (λ bits. bits ≡ replicate signals 0) }
    {
        let walk = idle(alloc, signals)?;
        Ok(DriverBits { walk })
    }

    /// The bits that a driver waits for, in place of those there: those that some path of it reads before it has surely assigned them.
    pub fn waits_of(self, design: &Design, driver: &Driver) -> Result<DriverBits, NoMemory>
        requires long { length self ≡ length design.now.signals.items }
        requires fits { IsTrue (driver_fits design.now.signals.items design.now.places.items driver.now) }
        ensures long { IfOk result (λ bits. length bits ≡ length self) }
        ensures bits { IfOk result (λ bits. (s b : ℕ) → s < length self → b < 128 → has bits s b ≡ driver_reads design.now.signals.items s b driver.now) }
    {
        let DriverBits { mut walk } = self;
        walk.reads.clear();
        read_driver(&mut walk, design, driver)?;
        Ok(DriverBits { walk })
    }

    /// The bits that each path of a combinational block assigns, by `=` or by `<=`, in place of those there; none of another driver.
    pub fn assigns_of(self, design: &Design, driver: &Driver) -> Result<DriverBits, NoMemory>
        requires long { length self ≡ length design.now.signals.items }
        requires fits { IsTrue (driver_fits design.now.signals.items design.now.places.items driver.now) }
        ensures long { IfOk result (λ bits. length bits ≡ length self) }
        ensures bits { IfOk result (λ bits. (s b : ℕ) → s < length self → b < 128 → has bits s b ≡ block_assigns design.now.signals.items s b driver.now) }
    {
        let DriverBits { mut walk } = self;
        walk.reads.clear();
        assign_driver(&mut walk, design, driver)?;
        Ok(DriverBits { walk })
    }

    /// The bits as a set.
    pub fn bits(&self) -> &BitSet
        ensures { result.now ≡ self.now }
    {
        &self.walk.reads
    }
}
