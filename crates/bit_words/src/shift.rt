ghost use Rattle.std.specs.Prelude.{◌≡◌, ◌≤◌, ◌<◌, IfErr, IfOk, OnOk, length, replicate};
ghost use Rattle.gate_base.specs.Arena.{UnlessNoMemory};
ghost use Rattle.gate_base.specs.Nodes.{counted, word};
ghost use Rattle.bit_words.specs.Shift.{moved, past_made, shift_made, stage_made};

use crate::word_maker::WordMaker;
use gate_base::{Literal, MakeErr};
use loc_base::{Items, NoMemory};
use std::alloc::Global;
use std::mem;

/// Where the bits of a word are moved to.
#[derive(Clone, Copy, Debug)]
pub enum Direction {
    Left,
    Right,
}

/// A shift: where to, and what comes in at the other end.
#[derive(Clone, Copy, Debug)]
pub struct Shift {
    pub direction: Direction,
    pub fill: Literal,
}

/// A word of one literal alone.
fn filled(alloc: Global, fill: Literal, width: usize) -> Result<Items<Literal>, NoMemory>
    ensures { IfOk result (λ word. word ≡ replicate width fill) }
{
    let bits = vec![in alloc; fill; width]?;
    Ok(Items::from_vec(bits))
}

/// A word moved by a number of places.
#[tactic(auto, using(crate::proofs::ShiftSteps::moves))]
fn moved(
    alloc: Global,
    shift: Shift,
    places: usize,
    left: &[Literal],
) -> Result<Items<Literal>, NoMemory>
    requires { places ≤ length left.now }
    ensures { IfOk result (λ word. word ≡ moved shift.direction shift.fill places left.now) }
{
    match shift.direction {
        Direction::Left => {
            let mut bits = filled(alloc, shift.fill, places)?;
            bits.append(&left[..left.len() - places])?;
            Ok(bits)
        }
        Direction::Right => {
            let mut bits = Items::copy_of(alloc, &left[places..])?;
            bits.append(filled(alloc, shift.fill, places)?.as_slice())?;
            Ok(bits)
        }
    }
}

impl WordMaker {
    /// Moves the word at hand where a bit is true.
    #[tactic(auto, unfolding(crate::specs::Shift::stage_made))]
    fn stage(
        &mut self,
        alloc: Global,
        shift: Shift,
        places: usize,
        bit: Literal,
    ) -> Result<(), MakeErr>
        requires { places ≤ length self.old.bits }
        ensures ok { OnOk result (word self.new.maker.nodes self.new.bits ≡ stage_made self.old.maker.nodes shift.direction shift.fill places bit self.old.bits) }
        ensures err { IfErr result (λ e. UnlessNoMemory e (self.old.maker.limit < counted (stage_made self.old.maker.nodes shift.direction shift.fill places bit self.old.bits).nodes)) }
        ensures limit { self.new.maker.limit ≡ self.old.maker.limit }
    {
        let word = mem::replace(&mut self.bits, Items::new(alloc));
        let away = moved(alloc, shift, places, word.as_slice())?;
        self.choose(bit, away.as_slice(), word.as_slice())
    }

    /// Fills the word at hand where one of the bits is true.
    #[tactic(auto, using(crate::proofs::ShiftSteps::past), unfolding(crate::specs::Shift::past_made))]
    fn fill_past(&mut self, alloc: Global, fill: Literal, bits: &[Literal]) -> Result<(), MakeErr>
        ensures ok { OnOk result (word self.new.maker.nodes self.new.bits ≡ past_made self.old.maker.nodes fill bits.now self.old.bits) }
        ensures err { IfErr result (λ e. UnlessNoMemory e (self.old.maker.limit < counted (past_made self.old.maker.nodes fill bits.now self.old.bits).nodes)) }
        ensures limit { self.new.maker.limit ≡ self.old.maker.limit }
    {
        let past = self.maker.or_all(bits)?;
        let word = mem::replace(&mut self.bits, Items::new(alloc));
        let away = filled(alloc, fill, word.len())?;
        self.choose(past, away.as_slice(), word.as_slice())
    }

    /// Puts a word shifted by another in the place of the word at hand.
    #[tactic(auto, using(crate::proofs::ShiftSteps::steps))]
    pub fn shift(
        &mut self,
        alloc: Global,
        shift: Shift,
        left: &[Literal],
        by: &[Literal],
    ) -> Result<(), MakeErr>
        requires { length left.now ≤ 128 }
        ensures ok { OnOk result (word self.new.maker.nodes self.new.bits ≡ shift_made self.old.maker.nodes shift.direction shift.fill left.now by.now) }
        ensures err { IfErr result (λ e. UnlessNoMemory e (self.old.maker.limit < counted (shift_made self.old.maker.nodes shift.direction shift.fill left.now by.now).nodes)) }
        ensures limit { self.new.maker.limit ≡ self.old.maker.limit }
    {
        self.bits = Items::copy_of(alloc, left)?;
        let mut places = 1;
        for i in 0..by.len() {
            if places >= left.len() {
                return self.fill_past(alloc, shift.fill, &by[i..]);
            }
            self.stage(alloc, shift, places, by[i])?;
            places += places;
        }
        self.fill_past(alloc, shift.fill, &[])
    }
}
