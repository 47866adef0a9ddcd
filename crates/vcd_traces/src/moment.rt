//! The bits of ports at a cycle (IEEE 1364-2005, 18.2.2), by the levels that are kept of their variables.
ghost use Rattle.std.specs.Prelude.{◌≡◌, ◌≤◌, ◌++◌, ◌/◌, ◌%◌, ◌^◌, IsTrue, OnOk, map, bit_and};
ghost use Rattle.std.specs.List.{find, list_all};
ghost use Rattle.std.specs.Option.{option_map};
ghost use Rattle.loc_base.specs.Bits.{width_of, value_of};
ghost use Rattle.design_core.specs.declared.trace.Checked.{Checked as TheChecked};
ghost use Rattle.vcd_reading.specs.Events.{is_low as level_is_low, is_high as level_is_high};
ghost use Rattle.vcd_traces.specs.Moment.{kept_level, kept_sample, kept_is_cycle, has_unknown, has_width};
ghost use Rattle.vcd_traces.specs.declared.moment.Watch.{Watch as TheWatch};
ghost use Rattle.vcd_traces.specs.Samples.{known_bits, part_level};

use crate::running::Running;
use design_core::Checked;
use loc_base::{Bits, NoMemory};
use vcd_reading::Part;
use vcd_words::Level;

/// A port that is sampled: the number of its signal, its width, the cell of its variable, and which bits of that are its.
#[derive(Clone, Copy)]
pub struct Watch {
    pub signal: u32,
    pub width: u8,
    pub cell: usize,
    pub part: Part,
}

/// The end of the stamp at a time, by what is kept of each cell's variable. With a clock the levels before the stamp
/// count, else those after it.
#[derive(Clone, Copy)]
pub struct Moment<'a> {
    pub running: &'a [Running],
    pub clocked: bool,
    pub time: u64,
}

/// The bits of a port: those that are 1, and those that are unknown.
#[derive(Clone, Copy)]
struct Sample {
    ones: Bits,
    unknowns: Bits,
}

/// A word of 128 bits.
fn word_of(value: u128) -> Bits
    ensures width { width_of result ≡ 128 }
    ensures value { value_of result ≡ value }
{
    let Some(bits) = Bits::new(128, value) else {
        unreachable!()
    };
    bits
}

/// Whether the lowest bit of a level is known to be 0.
fn is_low(level: Level) -> bool
    ensures { result ≡ level_is_low level }
{
    level.ones % 2 == 0 && level.unknowns % 2 == 0
}

/// Whether the lowest bit of a level is known to be 1.
fn is_high(level: Level) -> bool
    ensures { result ≡ level_is_high level }
{
    level.ones % 2 == 1 && level.unknowns % 2 == 0
}

/// The bits from a number on.
#[tactic(auto, using(crate::proofs::PartLaws::none_from))]
fn bits_from(bits: u128, number: u8) -> u128
    ensures { result ≡ bits / 2 ^ number }
{
    if number < 128 { bits >> number } else { 0 }
}

/// The bits of a level that are a port's.
fn part_of(level: Level, part: Part) -> Level
    ensures { result ≡ part_level part level }
{
    match part {
        Part::Whole => level,
        Part::Bit { number, .. } => Level {
            ones: bits_from(level.ones, number),
            unknowns: bits_from(level.unknowns, number),
        },
    }
}

impl Moment<'_> {
    /// Whether the stamp is a cycle: there is no clock, or it rises.
    pub fn is_cycle(&self, clock: Option<usize>) -> bool
        ensures { result ≡ kept_is_cycle self.now clock }
    {
        let Some(cell) = clock else {
            return true;
        };
        match self.running.get(cell) {
            None => false,
            Some(running) => is_low(running.before(self.time)) && is_high(running.level),
        }
    }

    /// The level that counts of a cell's variable; where there is no such cell, no bit is known.
    fn level(&self, cell: usize) -> Level
        ensures { result ≡ kept_level self.now cell }
    {
        match self.running.get(cell) {
            None => Level::unknown(),
            Some(running) => {
                if self.clocked {
                    running.before(self.time)
                } else {
                    running.level
                }
            }
        }
    }

    /// The bits of a port.
    fn sample(&self, watch: &Watch) -> Sample
        requires { IsTrue (has_width watch.now) }
        ensures ones_width { width_of result.ones ≡ watch.now.width }
        ensures unknowns_width { width_of result.unknowns ≡ watch.now.width }
        ensures ones { value_of result.ones ≡ (kept_sample self.now watch.now).ones }
        ensures unknowns { value_of result.unknowns ≡ (kept_sample self.now watch.now).unknowns }
    {
        let level = part_of(self.level(watch.cell), watch.part);
        Sample {
            ones: word_of(level.ones).cut(watch.width),
            unknowns: word_of(level.unknowns).cut(watch.width),
        }
    }

    /// Whether a port has an unknown bit.
    fn has_unknown(&self, watch: &Watch) -> bool
        requires { IsTrue (has_width watch.now) }
        ensures { result ≡ has_unknown self.now watch.now }
    {
        self.sample(watch).unknowns.value() != 0
    }

    /// What is expected of an output: its known bits, and no others.
    fn expected(&self, watch: &Watch) -> Checked
        requires { IsTrue (has_width watch.now) }
        ensures mask_width { width_of result.mask ≡ watch.now.width }
        ensures value_width { width_of result.value ≡ watch.now.width }
        ensures mask { value_of result.mask ≡ known_bits watch.now.width (kept_sample self.now watch.now) }
        ensures value { value_of result.value ≡ bit_and (kept_sample self.now watch.now).ones (known_bits watch.now.width (kept_sample self.now watch.now)) }
    {
        let sample = self.sample(watch);
        let mask = sample.unknowns.not();
        Checked {
            value: sample.ones.and(mask),
            mask,
        }
    }

    /// The signal of the first of some ports that has an unknown bit.
    #[tactic(auto, using(vcd_reading::proofs::ListSteps::list_steps))]
    pub fn unknown_in(&self, watches: &[Watch]) -> Option<u32>
        requires { IsTrue (list_all has_width watches.now) }
        ensures { result ≡ option_map (λ (watch : TheWatch). watch.signal) (find (has_unknown self.now) watches.now) }
    {
        for watch in watches {
            if self.has_unknown(watch) {
                return Some(watch.signal);
            }
        }
        None
    }

    /// One more sample for each of some inputs.
    #[tactic(auto, using(vcd_reading::proofs::ListSteps::list_steps))]
    pub fn push_samples(&self, watches: &[Watch], samples: &mut Vec<Bits>) -> Result<(), NoMemory>
        requires { IsTrue (list_all has_width watches.now) }
        ensures values { OnOk result (map value_of samples.new.items ≡ map value_of samples.old.items ++ map (λ watch. (kept_sample self.now watch).ones) watches.now) }
        ensures widths { OnOk result (map width_of samples.new.items ≡ map width_of samples.old.items ++ map (λ (watch : TheWatch). watch.width) watches.now) }
    {
        for watch in watches {
            samples.push(self.sample(watch).ones)?;
        }
        Ok(())
    }

    /// What is expected of each of some outputs.
    #[tactic(auto, using(vcd_reading::proofs::ListSteps::list_steps))]
    pub fn push_expected(
        &self,
        watches: &[Watch],
        expected: &mut Vec<Checked>,
    ) -> Result<(), NoMemory>
        requires { IsTrue (list_all has_width watches.now) }
        ensures masks { OnOk result (map (λ (c : TheChecked). value_of c.mask) expected.new.items ≡ map (λ (c : TheChecked). value_of c.mask) expected.old.items ++ map (λ (watch : TheWatch). known_bits watch.width (kept_sample self.now watch)) watches.now) }
        ensures mask_widths { OnOk result (map (λ (c : TheChecked). width_of c.mask) expected.new.items ≡ map (λ (c : TheChecked). width_of c.mask) expected.old.items ++ map (λ (watch : TheWatch). watch.width) watches.now) }
        ensures values { OnOk result (map (λ (c : TheChecked). value_of c.value) expected.new.items ≡ map (λ (c : TheChecked). value_of c.value) expected.old.items ++ map (λ (watch : TheWatch). bit_and (kept_sample self.now watch).ones (known_bits watch.width (kept_sample self.now watch))) watches.now) }
        ensures value_widths { OnOk result (map (λ (c : TheChecked). width_of c.value) expected.new.items ≡ map (λ (c : TheChecked). width_of c.value) expected.old.items ++ map (λ (watch : TheWatch). watch.width) watches.now) }
    {
        for watch in watches {
            expected.push(self.expected(watch))?;
        }
        Ok(())
    }
}
