//! Drivers, and what reads the clock (IEEE 1364-2005, 6.1; IEEE 1364.1-2002, 5.2.2).
ghost use Rattle.std.specs.Prelude.{◌≡◌, ◌++◌, [], Some, None, length, IfOk, OnOk};
ghost use Rattle.std.specs.List.{list_any};
ghost use Rattle.design_core.specs.Valuation.{bit};
ghost use Rattle.v_binding.specs.Clocks.{driver_reads_clock, block_reads_clock};
ghost use Rattle.v_binding.specs.Assignments.{driven, driven_at};
ghost use Rattle.v_binding.specs.Homes.{home_of};
ghost use Rattle.bind_clocks.specs.Rooted.{is_read_in};

use crate::bound::Bound;
use crate::frame::Frame;
use crate::roots::Roots;
use design_bits::BitSet;
use design_core::{Clocked, Driver, Target, Typed};
use loc_base::{Items, NoMemory, Span};
use std::mem;
use v_binding::{Home, Left, Start};

/// An assignment that is a driver: where its place begins, and its sides.
#[derive(Drop)]
pub struct Made {
    pub start: Start,
    pub span: Span,
    pub left: Left,
    pub value: Typed,
}

/// Whether a mask has bit 0.
#[tactic(auto, using(crate::proofs::ReadLaws::lowest))]
fn is_odd(mask: u128) -> bool
    ensures { result ≡ bit mask 0 }
{
    mask % 2 == 1
}

/// Whether a set has bit 0 of a signal that carries an input of the top.
fn carries(set: &BitSet, roots: &Roots, input: u32) -> bool
    ensures { result ≡ list_any (is_read_in set.now (Some input)) roots.now }
{
    for signal in set.signals() {
        if is_odd(set.mask(*signal)) && roots.has(*signal, input) {
            return true;
        }
    }
    false
}

/// Whether a set has bit 0 of a signal that carries the clock.
fn carries_clock(set: &BitSet, roots: &Roots, clock: Option<u32>) -> bool
    ensures { result ≡ list_any (is_read_in set.now clock) roots.now }
{
    match clock {
        Some(input) => carries(set, roots, input),
        None => false,
    }
}

impl Bound {
    /// Whether a driver reads the clock.
    pub fn driver_reads_clock(&mut self, frame: &Frame, driver: &Driver) -> Result<bool, NoMemory>
        ensures same { self.new ≡ self.old }
        ensures reads { IfOk result (λ reads. reads ≡ driver_reads_clock frame.now.signals frame.now.clock self.old.roots driver.now) }
    {
        self.looked.fit(self.roots.reach(), self.alloc)?;
        self.looked.look_at(frame.signals(), driver)?;
        Ok(carries_clock(&self.looked.set, &self.roots, frame.clock()))
    }

    /// Whether a clocked block that is without a reset yet reads the clock.
    pub fn block_reads_clock(&mut self, frame: &Frame, block: &Clocked) -> Result<bool, NoMemory>
        requires { block.now.reset ≡ None }
        ensures same { self.new ≡ self.old }
        ensures reads { IfOk result (λ reads. reads ≡ block_reads_clock frame.now.signals frame.now.clock self.old.roots block.now.body) }
    {
        self.looked.fit(self.roots.reach(), self.alloc)?;
        self.looked.look_in(frame.signals(), block)?;
        Ok(carries_clock(&self.looked.set, &self.roots, frame.clock()))
    }

    /// A driver more, with what it reads.
    pub fn driven(&mut self, frame: &Frame, span: Span, driver: Driver) -> Result<(), NoMemory>
        ensures { OnOk result (self.new ≡ driven frame.now span driver self.old) }
    {
        let reads = self.driver_reads_clock(frame, &driver)?;
        self.add_driver(driver)?;
        self.note_clock_read(reads, span);
        Ok(())
    }

    /// The number of the next place. A list of 2^32 places is more than memory holds.
    pub fn place_count(&self) -> Result<u32, NoMemory>
        ensures { IfOk result (λ count. count ≡ length self.now.places) }
    {
        match u32::try_from(self.places().len()) {
            Ok(count) => Ok(count),
            Err(_) => Err(NoMemory),
        }
    }

    /// A driver that is a place.
    pub fn driven_at(&mut self, frame: &Frame, home: Home<'_>, made: Made) -> Result<(), NoMemory>
        ensures { OnOk result (self.new ≡ driven_at frame.now (home_of home.entry) made.start.kind made.start.site made.start.copy made.span made.left made.value self.old) }
    {
        let Made {
            start,
            span,
            mut left,
            value,
        } = made;
        let number = self.place_count()?;
        self.add_place(home.place(self.alloc, start, &left)?)?;
        let parts = mem::replace(&mut left.parts, Items::new(self.alloc));
        let driver = Driver::Cont {
            target: Target { parts },
            value,
            place: Some(number),
            span,
        };
        self.driven(frame, span, driver)
    }
}
