//! Words that make no nodes.

ghost use Rattle.std.specs.Prelude.{◌++◌, ◌+◌, ◌≡◌, ◌≤◌, OnOk, length, replicate};
ghost use Rattle.gate_base.specs.Nodes.{word};
ghost use Rattle.bit_circuit.specs.Wires.{blended_bits, constant_bits, repeated_bits, replaced_bits, resized_bits, sign_bit};

use crate::binary::sign_bit;
use bit_words::WordMaker;
use gate_base::Literal;
use loc_base::NoMemory;

/// Appends the bits of a number.
#[tactic(auto, using(crate::proofs::WireSteps::constants))]
pub(crate) fn constant(words: &mut WordMaker, width: u8, value: u128) -> Result<(), NoMemory>
    ensures ok { OnOk result (word words.new.maker.nodes words.new.bits ≡ word words.old.maker.nodes (words.old.bits ++ constant_bits width value)) }
    ensures limit { words.new.maker.limit ≡ words.old.maker.limit }
{
    let mut rest = value;
    for bit in 0..width {
        words.bits.push(Literal::Known(rest % 2 == 1))?;
        rest /= 2;
    }
    Ok(())
}

/// Appends the bits of one word where a number has 1, else those of another.
#[tactic(auto, using(crate::proofs::WireSteps::blends))]
pub(crate) fn blend(
    words: &mut WordMaker,
    mask: u128,
    one: &[Literal],
    other: &[Literal],
) -> Result<(), NoMemory>
    requires { length one.now ≡ length other.now }
    ensures ok { OnOk result (word words.new.maker.nodes words.new.bits ≡ word words.old.maker.nodes (words.old.bits ++ blended_bits mask one.now other.now)) }
    ensures limit { words.new.maker.limit ≡ words.old.maker.limit }
{
    let mut rest = mask;
    for i in 0..one.len() {
        words
            .bits
            .push(if rest % 2 == 1 { one[i] } else { other[i] })?;
        rest /= 2;
    }
    Ok(())
}

/// Appends a word a number of times.
#[tactic(auto, using(crate::proofs::WireSteps::repeats))]
pub(crate) fn repeat(words: &mut WordMaker, times: u8, part: &[Literal]) -> Result<(), NoMemory>
    ensures ok { OnOk result (word words.new.maker.nodes words.new.bits ≡ word words.old.maker.nodes (words.old.bits ++ repeated_bits times part.now)) }
    ensures limit { words.new.maker.limit ≡ words.old.maker.limit }
{
    for time in 0..times {
        words.bits.append(part)?;
    }
    Ok(())
}

/// Appends a word whose bits from a position on are replaced.
#[tactic(auto, using(crate::proofs::WireSteps::replaces))]
pub(crate) fn replace(
    words: &mut WordMaker,
    from: usize,
    part: &[Literal],
    old: &[Literal],
) -> Result<(), NoMemory>
    requires { from + length part.now ≤ length old.now }
    ensures ok { OnOk result (word words.new.maker.nodes words.new.bits ≡ word words.old.maker.nodes (words.old.bits ++ replaced_bits from part.now old.now)) }
    ensures limit { words.new.maker.limit ≡ words.old.maker.limit }
{
    words.bits.append(&old[..from])?;
    words.bits.append(part)?;
    words.bits.append(&old[from + part.len()..])?;
    Ok(())
}

/// Appends a literal a number of times.
#[tactic(auto, using(crate::proofs::WireSteps::fills))]
fn fill(words: &mut WordMaker, count: usize, literal: Literal) -> Result<(), NoMemory>
    ensures ok { OnOk result (word words.new.maker.nodes words.new.bits ≡ word words.old.maker.nodes (words.old.bits ++ replicate count literal)) }
    ensures limit { words.new.maker.limit ≡ words.old.maker.limit }
{
    for time in 0..count {
        words.bits.push(literal)?;
    }
    Ok(())
}

/// Appends a word cut or extended to a width, by its sign where it is signed.
#[tactic(auto, using(crate::proofs::WireSteps::resizes))]
pub(crate) fn resize(
    words: &mut WordMaker,
    width: usize,
    signed: bool,
    arg: &[Literal],
) -> Result<(), NoMemory>
    requires { 1 ≤ length arg.now }
    ensures ok { OnOk result (word words.new.maker.nodes words.new.bits ≡ word words.old.maker.nodes (words.old.bits ++ resized_bits width (sign_bit signed arg.now) arg.now)) }
    ensures limit { words.new.maker.limit ≡ words.old.maker.limit }
{
    if arg.len() <= width {
        words.bits.append(arg)?;
        fill(words, width - arg.len(), sign_bit(signed, arg))
    } else {
        words.bits.append(&arg[..width])?;
        Ok(())
    }
}
