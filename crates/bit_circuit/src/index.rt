//! Bits by a variable index, read and stored.

ghost use Rattle.std.specs.Prelude.{◌≡◌, ◌<◌, ◌≤◌, IfErr, OnOk, length};
ghost use Rattle.gate_base.specs.Arena.{UnlessNoMemory};
ghost use Rattle.gate_base.specs.Nodes.{counted, word};
ghost use Rattle.bit_circuit.specs.Indexes.{picks_made, puts_made};

use crate::names::{names_at, names_from, offset_at};
use bit_words::WordMaker;
use gate_base::{Literal, MakeErr};
use std::alloc::Global;
use word_net::Select;

/// A select, the literals of its index, and where lists that it needs meanwhile are allocated.
#[derive(Clone, Copy)]
pub(crate) struct ByIndex<'a> {
    pub alloc: Global,
    pub select: &'a Select,
    pub index: &'a [Literal],
}

/// Appends the bits of a word that a select reads.
#[tactic(auto, using(crate::proofs::SelectSteps::picks))]
pub(crate) fn picks(words: &mut WordMaker, by: ByIndex, from: &[Literal]) -> Result<(), MakeErr>
    requires least { 1 ≤ by.select.now.index.width }
    requires most { by.select.now.index.width ≤ 128 }
    requires long { length from.now ≤ 128 }
    ensures ok { OnOk result (word words.new.maker.nodes words.new.bits ≡ picks_made words.old.maker.nodes words.old.bits by.entry.index.now from.now by.entry.select.now by.entry.select.now.offsets) }
    ensures err { IfErr result (λ e. UnlessNoMemory e (words.old.maker.limit < counted (picks_made words.old.maker.nodes words.old.bits by.entry.index.now from.now by.entry.select.now by.entry.select.now.offsets).nodes)) }
    ensures limit { words.new.maker.limit ≡ words.old.maker.limit }
{
    let offsets = by.select.offsets.as_slice();
    for i in 0..offsets.len() {
        let names = names_from(by.alloc, by.select, offset_at(offsets, i), from.len())?;
        let bit = words.pick(by.index, from, names.as_slice())?;
        words.bits.push(bit)?;
    }
    Ok(())
}

/// Appends the bits of a word into which a select stores a value.
#[tactic(auto, using(crate::proofs::SelectSteps::puts))]
pub(crate) fn puts(
    words: &mut WordMaker,
    by: ByIndex,
    value: &[Literal],
    old: &[Literal],
) -> Result<(), MakeErr>
    requires least { 1 ≤ by.select.now.index.width }
    requires most { by.select.now.index.width ≤ 128 }
    requires long { length old.now ≤ 128 }
    ensures ok { OnOk result (word words.new.maker.nodes words.new.bits ≡ puts_made words.old.maker.nodes words.old.bits by.entry.index.now value.now by.entry.select.now 0 old.now) }
    ensures err { IfErr result (λ e. UnlessNoMemory e (words.old.maker.limit < counted (puts_made words.old.maker.nodes words.old.bits by.entry.index.now value.now by.entry.select.now 0 old.now).nodes)) }
    ensures limit { words.new.maker.limit ≡ words.old.maker.limit }
{
    let mut position = 0u8;
    for i in 0..old.len() {
        let names = names_at(by.alloc, by.select, position)?;
        let bit = words.put(by.index, value, names.as_slice(), old[i])?;
        words.bits.push(bit)?;
        position += 1;
    }
    Ok(())
}
