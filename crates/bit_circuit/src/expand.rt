//! The circuit of a whole net, its nodes one after another.

ghost use Rattle.std.specs.Prelude.{◌≡◌, ◌<◌, ◌≤◌, [], IfErr, IfOk, length, slice_get, Some};
ghost use Rattle.gate_base.specs.Arena.{UnlessNoMemory};
ghost use Rattle.gate_base.specs.Nodes.{counted};
ghost use Rattle.word_net.specs.Nets.{IsNet};
ghost use Rattle.bit_circuit.specs.Circuits.{circuit_of, expanded, expansion, words_at};
ghost use Rattle.bit_circuit.specs.Fields.{AreNumbers};
ghost use Rattle.bit_circuit.specs.Limits.{IsRefused};

use crate::circuit::Circuit;
use crate::error::BlastErr;
use crate::literals::literals;
use bit_words::WordMaker;
use gate_base::{Literal, MakeErr, Maker};
use loc_base::{Items, NoMemory, Rows};
use std::alloc::Global;
use std::mem;
use word_net::WordNet;

/// How many AND and free nodes a circuit may have.
pub const NODES: u32 = 4_000_000;

/// The arena, and the literals of each node of a net so far.
#[derive(Drop)]
struct Expansion {
    maker: WordMaker,
    words: Rows<Literal>,
}

/// Takes the word at hand away and keeps its memory.
fn clear(maker: &mut WordMaker, alloc: Global)
    ensures bits { maker.new.bits ≡ [] }
    ensures maker { maker.new.maker ≡ maker.old.maker }
{
    let mut bits = mem::replace(&mut maker.bits, Items::new(alloc)).into_vec();
    bits.clear();
    maker.bits = Items::from_vec(bits);
}

/// The nodes and literals of a net's nodes.
#[tactic(auto, using(crate::proofs::ExpandSteps::steps))]
fn expand(alloc: Global, net: &WordNet) -> Result<Expansion, MakeErr>
    ensures ok { IfOk result (λ x. expansion x.maker.maker.nodes x.words ≡ expanded [] [] net.now.nodes) }
    ensures err { IfErr result (λ e. UnlessNoMemory e (4000000 < counted (expanded [] [] net.now.nodes).nodes)) }
    ensures limit { IfOk result (λ x. x.maker.maker.limit ≡ 4000000) }
    ensures many { IfOk result (λ x. length x.words ≡ length net.now.nodes) }
    ensures net { IsNet net.now }
{
    let nodes = net.nodes();
    let mut words = Rows::new(alloc);
    let mut maker = WordMaker {
        maker: Maker::new(alloc, NODES),
        bits: Items::new(alloc),
    };
    for node in nodes {
        clear(&mut maker, alloc);
        literals(&mut maker, alloc, &words, node)?;
        words.push(maker.bits.as_slice())?;
    }
    Ok(Expansion { maker, words })
}

/// The literals of some nodes.
#[tactic(auto, using(crate::proofs::ExpandSteps::gathers))]
fn gathered(
    alloc: Global,
    words: &Rows<Literal>,
    numbers: &[u32],
) -> Result<Rows<Literal>, NoMemory>
    requires { AreNumbers (length words.now) numbers.now }
    ensures { IfOk result (λ some. some ≡ words_at words.now numbers.now) }
{
    let mut some = Rows::new(alloc);
    for i in 0..numbers.len() {
        some.push(words.row(numbers[i] as usize))?;
    }
    Ok(some)
}

/// The circuit of a net. It is refused where it would have more than 4,000,000 AND and free nodes.
#[tactic(auto, using(crate::proofs::CircuitKept::whole))]
pub fn blast(alloc: Global, net: &WordNet) -> Result<Circuit, BlastErr>
    ensures ok { IfOk result (λ circuit. circuit ≡ circuit_of net.now) }
    ensures within { IfOk result (λ circuit. counted circuit.nodes ≤ 4000000) }
    ensures err { IfErr result (λ e. IsRefused e (4000000 < counted (circuit_of net.now).nodes)) }
{
    let Expansion { maker, words } = expand(alloc, net)?;
    let outputs = gathered(alloc, &words, net.outputs())?;
    let next = gathered(alloc, &words, net.next())?;
    let start = Items::copy_of(alloc, net.start())?.into_vec();
    Ok(Circuit::new(maker.maker.into_nodes(), outputs, next, start))
}
