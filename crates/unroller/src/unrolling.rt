//! The unrolled form of a circuit for some traces.

ghost use Rattle.std.specs.Prelude.{◌≡◌, ◌+◌, ◌-◌, ◌<◌, ◌≤◌, IfErr, IfOk, OnOk, length, map};
ghost use Rattle.gate_base.specs.Arena.{UnlessNoMemory};
ghost use Rattle.gate_base.specs.Nodes.{counted};
ghost use Rattle.unroller.specs.Fields.{frame_of, unrolling_of};
ghost use Rattle.unroller.specs.Limits.{IsRefused};
ghost use Rattle.unroller.specs.Unrolls.{AreTraces, base_of, constant_word, traces_unrolled, unrolled_before, unrolled_of, variables_of};

use crate::error::UnrollErr;
use crate::frame::Frame;
use crate::groups::{VARIABLES, grouped, variables_before};
use crate::hints::hints;
use crate::unrolled::Unrolled;
use crate::work::{Work, free_bits};
use bit_circuit::Circuit;
use design_core::Trace;
use gate_base::{Literal, MakeErr, Maker};
use loc_base::{Bits, Items, NoMemory, Rows};
use std::alloc::Global;
use suspect_map::Groups;

/// The literals of a number.
#[tactic(auto, using(bit_circuit::proofs::WireSteps::constants))]
fn constant_word(alloc: Global, word: Bits) -> Result<Items<Literal>, NoMemory>
    ensures { IfOk result (λ literals. literals ≡ constant_word word) }
{
    let mut literals = Items::new(alloc);
    let mut rest = word.value();
    for bit in 0..word.width() {
        literals.push(Literal::Known(rest % 2 == 1))?;
        rest /= 2;
    }
    Ok(literals)
}

/// Those of the states before the first cycle.
#[tactic(auto, using(crate::proofs::TraceSteps::starts))]
fn start_words(alloc: Global, start: &[Bits]) -> Result<Rows<Literal>, NoMemory>
    ensures { IfOk result (λ words. words ≡ map constant_word start.now) }
{
    let mut words = Rows::new(alloc);
    for i in 0..start.len() {
        let word = constant_word(alloc, start[i])?;
        words.push(word.as_slice())?;
    }
    Ok(words)
}

impl Work {
    /// Nothing yet, of a form whose first definition has this variable.
    fn new(alloc: Global, circuit: &Circuit, before: u32) -> Result<Work, NoMemory>
        requires { before ≤ 4000000 }
        ensures form { IfOk result (λ work. unrolling_of work ≡ unrolled_before circuit.now (before + 1)) }
        ensures limit { IfOk result (λ work. work.maker.limit ≡ 4000000 - before) }
    {
        Ok(Work {
            alloc,
            base: before + 1,
            each: circuit.outputs().len(),
            bits: free_bits(alloc, circuit.nodes())?,
            maker: Maker::new(alloc, VARIABLES - before),
            ends: Items::new(alloc),
            outputs: Rows::new(alloc),
            expected: Items::new(alloc),
            frees: Rows::new(alloc),
            firsts: Items::new(alloc),
        })
    }

    /// Appends the cycles of all traces, each from the states before the first cycle.
    fn traces(
        &mut self,
        circuit: &Circuit,
        frame: &mut Frame,
        traces: &[Trace],
    ) -> Result<(), MakeErr>
        requires { AreTraces circuit.now traces.now (length self.old.ends) }
        ensures ok { OnOk result (unrolling_of self.new ≡ traces_unrolled circuit.now (frame_of frame.old).grouped (unrolling_of self.old) traces.now) }
        ensures err { IfErr result (λ e. UnlessNoMemory e (self.old.maker.limit < counted (traces_unrolled circuit.now (frame_of frame.old).grouped (unrolling_of self.old) traces.now).definitions)) }
        ensures limit { self.new.maker.limit ≡ self.old.maker.limit }
    {
        for i in 0..traces.len() {
            self.firsts.push(self.ends.len() as u32)?;
            frame.states = start_words(self.alloc, circuit.start())?;
            self.trace(circuit, frame, &traces[i])?;
        }
        Ok(())
    }
}

/// The unrolled form of a circuit for some traces, where sets of at most k groups are asked for. It is refused where it would
/// have more than 4,000,000 variables.
#[tactic(auto, using(crate::proofs::Whole::whole))]
pub fn unroll(
    alloc: Global,
    circuit: &Circuit,
    traces: &[Trace],
    groups: &Groups,
    k: u32,
) -> Result<Unrolled, UnrollErr>
    requires { AreTraces circuit.now traces.now 0 }
    ensures ok { IfOk result (λ u. u ≡ unrolled_of circuit.now traces.now groups.now k) }
    ensures base { IfOk result (λ u. u.base ≡ base_of groups.now k) }
    ensures err { IfErr result (λ e. IsRefused e (4000000 < variables_of (unrolled_of circuit.now traces.now groups.now k))) }
{
    let before = match variables_before(groups.len(), k) {
        Some(before) => before,
        None => return Err(UnrollErr::Vars),
    };
    let mut work = Work::new(alloc, circuit, before)?;
    let mut frame = Frame {
        moment: 0,
        samples: Items::new(alloc),
        states: Rows::new(alloc),
        grouped: grouped(alloc, groups.as_slice())?,
    };
    work.traces(circuit, &mut frame, traces)?;
    let hints = hints(alloc, work.bits.as_slice())?;
    Ok(work.into_unrolled(hints))
}
