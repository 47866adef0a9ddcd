ghost use Rattle.std.specs.Prelude.{◌≡◌, IsTrue, IfOk};
ghost use Rattle.clause_base.specs.Literal.{has_distinct_variables};
ghost use Rattle.proof_check.specs.Text.{most_number};
ghost use Rattle.proof_check.specs.LineWords.{no_words, is_whole, take_word, with_literal, with_number, with_colon, read_literal, read_number, fits_kind, last_variable};
ghost use Rattle.proof_check.specs.Took.{Took};

use crate::text::number::number_of;
use crate::text::seen::{forget, is_seen, make_place};
use crate::text::words::{MOST_NUMBER, literal_of};
use clause_base::{Lit, StepKind};
use loc_base::NoMemory;
use std::alloc::Global;
use std::marker::Model;

/// Reads a line, word by word, and holds what its words have given so far. Contracts see the literals, the chain, and whether the colon came.
#[derive(Drop)]
pub(crate) struct LineReader {
    literals: Vec<Lit>,
    chain: Vec<u32>,
    in_chain: bool,
    /// For each variable whether a literal is of it.
    seen: Vec<bool>,
}

impl Model for LineReader {
    ghost use Rattle.proof_check.specs.LineWords.{LineWords};

    ghost Value = { LineWords };

    ghost use Rattle.proof_check.specs.LineReader.{words_in, IsLineReader};

    ghost view = { words_in };

    ghost invariant = { IsLineReader };
}

impl LineReader {
    /// A reader that has read no word. It takes no memory.
    pub(crate) fn new(alloc: Global) -> LineReader
        ensures { result ≡ no_words }
    {
        LineReader {
            literals: Vec::new(alloc),
            chain: Vec::new(alloc),
            in_chain: false,
            seen: Vec::new(alloc),
        }
    }

    /// Forgets all words.
    pub(crate) fn clear(&mut self)
        ensures { self.new ≡ no_words }
    {
        forget(&mut self.seen, &self.literals);
        self.literals.clear();
        self.chain.clear();
        self.in_chain = false;
    }

    /// The literals so far.
    pub(crate) fn literals(&self) -> &[Lit]
        ensures value { result.now ≡ self.now.literals }
        ensures distinct { IsTrue (has_distinct_variables result.now) }
    {
        self.literals.as_slice()
    }

    /// The chain so far.
    pub(crate) fn chain(&self) -> &[u32]
        ensures { result.now ≡ self.now.chain }
    {
        self.chain.as_slice()
    }

    /// Whether nothing is lacking for a step of that kind.
    pub(crate) fn is_whole(&self, kind: StepKind) -> bool
        ensures { result ≡ is_whole kind self.now }
    {
        match kind {
            StepKind::Block => true,
            StepKind::Learned | StepKind::Derived => !self.chain.is_empty(),
        }
    }

    /// Takes one more word of a line of that kind. `false` where it doesn't belong there.
    pub(crate) fn take(&mut self, kind: StepKind, word: &[u8]) -> Result<bool, NoMemory>
        ensures { IfOk result (Took (take_word kind self.old word.now) self.new) }
    {
        if self.in_chain {
            return self.take_number(word);
        }
        if word == b":".as_slice() {
            return Ok(self.take_colon(kind));
        }
        self.take_literal(kind, word)
    }

    fn take_number(&mut self, word: &[u8]) -> Result<bool, NoMemory>
        ensures { IfOk result (Took (with_number self.old (read_number most_number word.now)) self.new) }
    {
        let Some(number) = number_of(word, MOST_NUMBER) else {
            return Ok(false);
        };
        self.chain.push(number)?;
        Ok(true)
    }

    fn take_colon(&mut self, kind: StepKind) -> bool
        ensures { Took (with_colon kind self.old) self.new result }
    {
        match kind {
            StepKind::Block => false,
            StepKind::Learned | StepKind::Derived => {
                self.in_chain = true;
                true
            }
        }
    }

    fn take_literal(&mut self, kind: StepKind, word: &[u8]) -> Result<bool, NoMemory>
        ensures { IfOk result (Took (with_literal kind self.old (read_literal word.now)) self.new) }
    {
        let Some(literal) = literal_of(word) else {
            return Ok(false);
        };
        if is_seen(&self.seen, literal.var) || !fits_with(kind, &self.literals, literal) {
            return Ok(false);
        }
        make_place(&mut self.seen, literal.var)?;
        self.literals.push(literal)?;
        self.seen[literal.var as usize] = true;
        Ok(true)
    }
}

/// The variable of the last literal; 0 where there is none.
fn last_of(literals: &[Lit]) -> u32
    ensures { result ≡ last_variable literals.now }
{
    match literals.last() {
        Some(literal) => literal.var,
        None => 0,
    }
}

/// Whether a literal may follow these in a line of that kind: a block has negations of ascending variables.
fn fits_with(kind: StepKind, literals: &[Lit], literal: Lit) -> bool
    ensures { result ≡ fits_kind kind literals.now literal }
{
    match kind {
        StepKind::Block => literal.negated && last_of(literals) < literal.var,
        StepKind::Learned | StepKind::Derived => true,
    }
}
