ghost use Rattle.std.specs.Prelude.{◌≡◌};
ghost use Rattle.design_core.specs.Words.{valuation_of};
ghost use Rattle.design_core.specs.Cycle.{is_active, is_reset, is_clocked};
ghost use Rattle.plain_sim.specs.EvaluateCycle.{is_in};

use crate::cycle::drives::{
    block_assigns_later, block_drives, driver_drives, is_driven, is_register_bit,
};
use design_core::{Clocked, Design};
use loc_base::Bits;
use plain_values::{bit_of, is_listed, word_at};

/// Some bits of a design.
#[derive(Clone, Copy)]
pub(crate) enum Region {
    /// Those of the inputs that traces give.
    Listed,
    /// Those of registers.
    Registers,
    /// Those of registers that a block with an active reset drives.
    Reset,
    /// Those of registers that none drives.
    Held,
    /// Those of registers that no clocked block drives.
    Unclocked,
    /// Those of no register.
    NoRegister,
    /// Those of no listed input and no register that no driver drives.
    Undriven,
    /// Those of the driver of a number.
    Driver(usize),
    /// Those of registers that the clocked block of a number drives.
    Block(usize),
    /// Those of the signals that the clocked block of a number assigns by `<=`.
    Later(usize),
}

/// A bit of a signal, 0 where there is none.
pub(crate) fn bit_at(words: &[Bits], s: usize, b: u8) -> bool
    ensures { result ≡ valuation_of words.now s b }
{
    if s >= words.len() {
        return false;
    }
    bit_of(word_at(words, s), u32::from(b))
}

/// Whether the reset of a clocked block is active.
pub fn is_active(words: &[Bits], block: &Clocked) -> bool
    ensures { result ≡ is_active (valuation_of words.now) block.now }
{
    match &block.reset {
        Some(reset) => {
            if reset.level {
                bit_at(words, reset.signal as usize, 0)
            } else {
                !bit_at(words, reset.signal as usize, 0)
            }
        }
        None => false,
    }
}

/// Whether a clocked block whose reset is active drives a bit.
fn is_reset(design: &Design, words: &[Bits], s: usize, b: u8) -> bool
    ensures { result ≡ is_reset design.now (valuation_of words.now) s b }
{
    design.clocked.iter().any(|block| is_active(words, block)
        && block_drives(&design.signals, s, b, block))
}

/// Whether a clocked block drives a bit.
fn is_clocked(design: &Design, s: usize, b: u8) -> bool
    ensures { result ≡ is_clocked design.now s b }
{
    design
        .clocked
        .iter()
        .any(|block| block_drives(&design.signals, s, b, block))
}

/// Whether a bit is in a region. `words` are the values by which a reset is active.
pub(crate) fn is_in(design: &Design, words: &[Bits], region: Region, s: usize, b: u8) -> bool
    ensures { result ≡ is_in design.now (valuation_of words.now) region s b }
{
    match region {
        Region::Listed => is_listed(design, s),
        Region::Registers => is_register_bit(design, s, b),
        Region::Reset => is_register_bit(design, s, b) && is_reset(design, words, s, b),
        Region::Held => is_register_bit(design, s, b) && !is_reset(design, words, s, b),
        Region::Unclocked => is_register_bit(design, s, b) && !is_clocked(design, s, b),
        Region::NoRegister => !is_register_bit(design, s, b),
        Region::Undriven => {
            !(is_listed(design, s) || is_register_bit(design, s, b) || is_driven(design, s, b))
        }
        Region::Driver(i) => match design.drivers.get(i) {
            Some(driver) => driver_drives(&design.signals, s, b, driver),
            None => false,
        },
        Region::Block(i) => match design.clocked.get(i) {
            Some(block) => {
                is_register_bit(design, s, b) && block_drives(&design.signals, s, b, block)
            }
            None => false,
        },
        Region::Later(i) => match design.clocked.get(i) {
            Some(block) => block_assigns_later(&design.signals, s, block),
            None => false,
        },
    }
}
