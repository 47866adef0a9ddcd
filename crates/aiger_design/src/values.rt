//! What literals mean.
ghost use Rattle.std.specs.Prelude.{◌≡◌, IfOk};
ghost use Rattle.aiger_design.specs.Signals.{bit_word};
ghost use Rattle.aiger_design.specs.Stands.{Stands};
ghost use Rattle.aiger_design.specs.Values.{bit_of, variable, value, first_read, second_read, first_value, second_value, and_value};

use crate::file::File;
use aiger_text::Row;
use design_core::{BinaryOp, Node, Typed, UnaryOp};
use loc_base::{Bits, Boxed, NoMemory};

/// The word of a bit.
#[tactic(auto, using(crate::proofs::Words::word_steps))]
pub(crate) fn bit_word(bit: bool) -> Bits
    ensures { result ≡ bit_word bit }
{
    Bits::from_bool(bit)
}

/// An expression of one bit.
fn bit_of(node: Node) -> Typed
    ensures { result ≡ bit_of node }
{
    Typed {
        width: 1,
        signed: false,
        node,
    }
}

/// What a row reads first; 0 where it reads nothing.
fn first_read(row: Row) -> u32
    ensures { result ≡ first_read row }
{
    match row {
        Row::Input { .. } => 0,
        Row::Latch { next, .. } => next,
        Row::Output { literal } => literal,
        Row::And { left, .. } => left,
    }
}

/// What a row reads second; 0 where it reads less.
fn second_read(row: Row) -> u32
    ensures { result ≡ second_read row }
{
    match row {
        Row::And { right, .. } => right,
        Row::Input { .. } | Row::Latch { .. } | Row::Output { .. } => 0,
    }
}

impl File<'_> {
    /// The value of a literal's variable.
    fn variable(&self, literal: u32) -> Typed
        requires { Stands self.now }
        ensures { result ≡ variable self.now.rows.now self.now.numbering literal }
    {
        let signal = match self.definers.find(u64::from(literal / 2 * 2)) {
            Some(row) => self.numbering.row_signal(row as u64),
            None => 0,
        };
        bit_of(Node::Whole(signal))
    }

    /// The value of a literal.
    fn value(&self, literal: u32) -> Result<Typed, NoMemory>
        requires { Stands self.now }
        ensures { IfOk result (λ e. e ≡ value self.now.rows.now self.now.numbering literal) }
    {
        if literal < 2 {
            return Ok(bit_of(Node::Const(bit_word(literal == 1))));
        }
        let variable = self.variable(literal);
        if literal % 2 != 1 {
            return Ok(variable);
        }
        let arg = Boxed::new(self.alloc, variable)?;
        Ok(bit_of(Node::Unary {
            op: UnaryOp::Not,
            arg,
        }))
    }

    /// The value of what the row of a number reads first.
    pub(crate) fn first_value(&self, number: u64) -> Result<Typed, NoMemory>
        requires { Stands self.now }
        ensures { IfOk result (λ e. e ≡ first_value self.now.rows.now self.now.numbering number) }
    {
        match self.rows.get(number as usize) {
            Some(row) => self.value(first_read(*row)),
            None => self.value(0),
        }
    }

    /// The value of what the row of a number reads second.
    fn second_value(&self, number: u64) -> Result<Typed, NoMemory>
        requires { Stands self.now }
        ensures { IfOk result (λ e. e ≡ second_value self.now.rows.now self.now.numbering number) }
    {
        match self.rows.get(number as usize) {
            Some(row) => self.value(second_read(*row)),
            None => self.value(0),
        }
    }

    /// The AND of both.
    pub(crate) fn and_value(&self, number: u64) -> Result<Typed, NoMemory>
        requires { Stands self.now }
        ensures { IfOk result (λ e. e ≡ and_value self.now.rows.now self.now.numbering number) }
    {
        let left = Boxed::new(self.alloc, self.first_value(number)?)?;
        let right = Boxed::new(self.alloc, self.second_value(number)?)?;
        Ok(bit_of(Node::Binary {
            op: BinaryOp::And,
            left,
            right,
        }))
    }
}
