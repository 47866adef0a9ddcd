//! The unrolled form, and what is read of it.

ghost use Rattle.std.specs.Prelude.{◌≡◌, ◌+◌, ◌*◌, ◌<◌, ◌↔◌, IsTrue, false, get_or, length};
ghost use Rattle.gate_base.specs.declared.literal.Literal.TheVariants.{Known};
ghost use Rattle.gate_base.specs.Literals.{IsBelow};

use crate::free_bit::FreeBit;
use crate::unrolled_lit::UnrolledLit;
use clause_base::Lit;
use design_core::Checked;
use gate_base::{Literal, Node};
use loc_base::{Items, Rows};
use std::marker::Model;

/// The unrolled form of a circuit for some traces. Contracts see it as an `Unrolling`: the variables before the definitions,
/// the definitions in the order of their variables, and for each cycle the literals of the outputs and of the free bits.
pub struct Unrolled {
    pub(crate) base: u32,
    pub(crate) each: usize,
    pub(crate) bits: Items<FreeBit>,
    /// For each place, where its bits are looked for first.
    pub(crate) hints: Items<usize>,
    pub(crate) definitions: Vec<Node>,
    pub(crate) ends: Items<u32>,
    pub(crate) outputs: Rows<Literal>,
    pub(crate) expected: Items<Checked>,
    pub(crate) frees: Rows<Literal>,
    pub(crate) firsts: Items<u32>,
}

impl Model for Unrolled {
    ghost use Rattle.unroller.specs.Unrolls.{Unrolling};
    ghost use Rattle.unroller.specs.Reads.{IsUnrolled};
    ghost use Rattle.unroller.specs.Inside.{unrolling};

    ghost Value = { Unrolling };

    ghost view = { unrolling };

    ghost invariant = { λ u. IsUnrolled (unrolling u) };
}

impl Drop for Unrolled {
    fn drop(self) {
        let Unrolled {
            base: _,
            each: _,
            bits: _,
            hints: _,
            definitions: _,
            ends: _,
            outputs: _,
            expected: _,
            frees: _,
            firsts: _,
        } = self;
    }
}

#[tactic(auto, using(crate::proofs::ReadSteps::reads))]
impl Unrolled {
    ghost use Rattle.unroller.specs.Reads.{HasFree, HasFreeBit, HasOutput, HasCycle, IsFreeAt, IsFreeBit, IsUnrolled, end_of, moment_of, output_at, unrolled_lit};
    ghost use Rattle.unroller.specs.Unrolls.{variables_of};

    /// The number of variables: those of the suspects, of their counters, and of the definitions.
    pub fn variables(&self) -> u32
        ensures value { result ≡ variables_of self.now }
        ensures kept { IsUnrolled self.now }
    {
        self.base - 1 + self.definitions.len() as u32
    }

    /// The variable of the first definition.
    pub fn base(&self) -> u32
        ensures { result ≡ self.now.base }
    {
        self.base
    }

    /// The definitions, in the order of their variables.
    pub fn definitions(&self) -> &[Node]
        ensures value { result.now ≡ self.now.definitions }
        ensures kept { IsUnrolled self.now }
    {
        self.definitions.as_slice()
    }

    /// For each cycle of each trace, the number of definitions once those of the cycle stand.
    pub fn ends(&self) -> &[u32]
        ensures { result.now ≡ self.now.ends }
    {
        self.ends.as_slice()
    }

    /// For each trace, the number of its first cycle among all cycles.
    pub fn firsts(&self) -> &[u32]
        ensures { result.now ≡ self.now.firsts }
    {
        self.firsts.as_slice()
    }

    /// The number of outputs in each cycle.
    pub fn each(&self) -> usize
        ensures { result ≡ self.now.each }
    {
        self.each
    }

    /// For each cycle and output, the literals of its bits.
    pub fn outputs(&self) -> &Rows<Literal>
        ensures { result.now ≡ self.now.outputs }
    {
        &self.outputs
    }

    /// For each cycle and output, what it is expected to be.
    pub fn expected(&self) -> &[Checked]
        ensures { result.now ≡ self.now.expected }
    {
        self.expected.as_slice()
    }

    /// The bits of places.
    pub fn bits(&self) -> &[FreeBit]
        ensures { result.now ≡ self.now.bits }
    {
        self.bits.as_slice()
    }

    /// For each cycle, the literals of the bits of places.
    pub fn frees(&self) -> &Rows<Literal>
        ensures { result.now ≡ self.now.frees }
    {
        &self.frees
    }

    /// The literal of the form that a literal over definitions is. It takes no memory.
    pub fn literal(&self, literal: Literal) -> UnrolledLit
        requires { IsBelow (length self.now.definitions) literal }
        ensures { result ≡ unrolled_lit self.now.base literal }
    {
        match literal {
            Literal::Known(value) => UnrolledLit::Const(value),
            Literal::Of { node, negated } => UnrolledLit::Of(Lit {
                var: self.base + node,
                negated,
            }),
        }
    }

    /// The number of the first cycle behind a trace.
    fn end_of(&self, trace: u32) -> usize
        ensures { result ≡ end_of self.now trace }
    {
        match self.firsts.as_slice().get(trace as usize + 1) {
            Some(next) => *next as usize,
            None => self.ends.len(),
        }
    }

    /// Whether a trace has a cycle of that number.
    pub fn has_cycle(&self, trace: u32, cycle: u32) -> bool
        ensures { IsTrue result ↔ HasCycle self.now trace cycle }
    {
        match self.firsts.as_slice().get(trace as usize) {
            Some(first) => {
                let moment = *first as usize + cycle as usize;
                moment < self.ends.len() && moment < self.end_of(trace)
            }
            None => false,
        }
    }

    /// The number of a cycle of a trace among all cycles.
    fn moment(&self, trace: u32, cycle: u32) -> usize
        requires { HasCycle self.now trace cycle }
        ensures value { result ≡ moment_of self.now trace cycle }
        ensures within { result < length self.now.ends }
    {
        self.firsts.as_slice()[trace as usize] as usize + cycle as usize
    }

    /// The number of an output in a cycle among those of all cycles.
    fn row(&self, moment: usize, output: u32) -> usize
        requires cycle { moment < length self.now.ends }
        requires output { output < self.now.each }
        ensures value { result ≡ moment * self.now.each + output }
        ensures within { result < length self.now.outputs }
    {
        let rows = self.outputs.len();
        let row = moment * self.each + output as usize;
        prove!(row < rows);
        row
    }

    /// A bit of an output in a cycle of a trace. It takes no memory.
    pub fn output(&self, trace: u32, cycle: u32, output: u32, bit: u8) -> UnrolledLit
        requires { HasOutput self.now trace cycle output bit }
        ensures { result ≡ unrolled_lit self.now.base (get_or (output_at self.now trace cycle output) bit (Known false)) }
    {
        let row = self.row(self.moment(trace, cycle), output);
        self.literal(self.outputs.row(row)[usize::from(bit)])
    }

    /// Whether a bit of an output in a cycle of a trace is there.
    pub fn has_output(&self, trace: u32, cycle: u32, output: u32, bit: u8) -> bool
        ensures { IsTrue result ↔ HasOutput self.now trace cycle output bit }
    {
        if !self.has_cycle(trace, cycle) || output as usize >= self.each {
            return false;
        }
        let row = self.row(self.moment(trace, cycle), output);
        usize::from(bit) < self.outputs.row(row).len()
    }

    /// Whether a free bit is that of a place.
    fn is_at(&self, column: usize, place: u32, bit: u8) -> bool
        ensures { IsTrue result ↔ IsFreeBit self.now place bit column }
    {
        match self.bits.get(column) {
            Some(free) => free.place == place && free.bit == bit,
            None => false,
        }
    }

    /// The number of a bit of a place among the free bits. It takes no memory.
    pub fn column(&self, place: u32, bit: u8) -> usize
        requires { HasFreeBit self.now place bit }
        ensures is { IsFreeBit self.now place bit result }
        ensures within { result < length self.now.bits }
    {
        if let Some(first) = self.hints.get(place as usize) {
            let hinted = first.saturating_add(usize::from(bit));
            if self.is_at(hinted, place, bit) {
                return hinted;
            }
        }
        for column in 0..self.bits.len() {
            if self.is_at(column, place, bit) {
                return column;
            }
        }
        unreachable!()
    }

    /// Whether a place has a bit.
    pub fn has_free(&self, place: u32, bit: u8) -> bool
        ensures { IsTrue result ↔ HasFreeBit self.now place bit }
    {
        for column in 0..self.bits.len() {
            if self.is_at(column, place, bit) {
                return true;
            }
        }
        false
    }

    /// A bit of a place in a cycle of a trace: its definition where the place is in a group, else what is computed. It takes no
    /// memory.
    pub fn free(&self, trace: u32, cycle: u32, place: u32, bit: u8) -> UnrolledLit
        requires { HasFree self.now trace cycle place bit }
        ensures { IsFreeAt self.now (moment_of self.now trace cycle) place bit result }
    {
        let moment = self.moment(trace, cycle);
        let column = self.column(place, bit);
        self.literal(self.frees.row(moment)[column])
    }
}
