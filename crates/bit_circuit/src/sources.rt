//! Bits of inputs, of states and of places, behind the word at hand.

ghost use Rattle.std.specs.Prelude.{◌≡◌, ◌+◌, ◌<◌, ◌^◌, ◌≤◌, IfErr, OnOk, length};
ghost use Rattle.gate_base.specs.Arena.{UnlessNoMemory};
ghost use Rattle.gate_base.specs.Nodes.{counted, sources_in, word};
ghost use Rattle.bit_circuit.specs.Sources.{frees_made, inputs_made, states_made};

use bit_words::WordMaker;
use gate_base::{Literal, MakeErr};
use loc_base::NoMemory;

/// Appends the bits of an input.
#[tactic(auto, using(crate::proofs::SourceSteps::inputs))]
pub(crate) fn inputs(words: &mut WordMaker, input: u32, width: u8) -> Result<(), NoMemory>
    requires { sources_in words.old.maker.nodes + width ≤ 2 ^ 31 }
    ensures ok { OnOk result (word words.new.maker.nodes words.new.bits ≡ inputs_made words.old.maker.nodes words.old.bits input 0 width) }
    ensures limit { words.new.maker.limit ≡ words.old.maker.limit }
{
    for bit in 0..width {
        let literal = words.maker.input(input, bit)?;
        words.bits.push(literal)?;
    }
    Ok(())
}

/// Appends the bits of a state.
#[tactic(auto, using(crate::proofs::SourceSteps::states))]
pub(crate) fn states(words: &mut WordMaker, state: u32, width: u8) -> Result<(), NoMemory>
    requires { sources_in words.old.maker.nodes + width ≤ 2 ^ 31 }
    ensures ok { OnOk result (word words.new.maker.nodes words.new.bits ≡ states_made words.old.maker.nodes words.old.bits state 0 width) }
    ensures limit { words.new.maker.limit ≡ words.old.maker.limit }
{
    for bit in 0..width {
        let literal = words.maker.state(state, bit)?;
        words.bits.push(literal)?;
    }
    Ok(())
}

/// Appends the bits of a place, each over its computed literal.
#[tactic(auto, using(crate::proofs::SourceSteps::frees))]
pub(crate) fn frees(words: &mut WordMaker, place: u32, computed: &[Literal]) -> Result<(), MakeErr>
    requires { length computed.now ≤ 128 }
    ensures ok { OnOk result (word words.new.maker.nodes words.new.bits ≡ frees_made words.old.maker.nodes words.old.bits place 0 computed.now) }
    ensures err { IfErr result (λ e. UnlessNoMemory e (words.old.maker.limit < counted (frees_made words.old.maker.nodes words.old.bits place 0 computed.now).nodes)) }
    ensures limit { words.new.maker.limit ≡ words.old.maker.limit }
{
    let mut bit = 0u8;
    for i in 0..computed.len() {
        let literal = words.maker.free(0, place, bit, computed[i])?;
        words.bits.push(literal)?;
        bit += 1;
    }
    Ok(())
}
