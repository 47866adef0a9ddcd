//! The formula that words give.
ghost use Rattle.std.specs.Prelude.{◌≡◌, ◌<◌, ◌^◌, All, IfOk, OnOk, IsTrue, length, map, []};
ghost use Rattle.clause_base.specs.Literal.{AreWithin, AllDistinct, has};
ghost use Rattle.dimacs_solver.specs.Words.{word_of, IsNumberWithin};
ghost use Rattle.dimacs_solver.specs.Reading.{with_literal, with_clause, after, clauses_of};

use crate::error::FormErr;
use crate::words::{Word, Words, read_words, word_of};
use clause_base::{Clauses, Form, Lit, has_distinct_variables};
use loc_base::NoMemory;
use std::alloc::Global;
use std::str;

/// The clauses of a formula are fewer.
const CLAUSES_END: u64 = 1 << 31;

/// Whether the clause has the literal.
fn has(clause: &[Lit], literal: Lit) -> bool
    ensures { result ≡ has clause.now literal }
{
    for known in clause {
        if known.var == literal.var && known.negated == literal.negated {
            return true;
        }
    }
    false
}

/// Adds a literal to a clause that lacks it.
fn add_literal(literals: &mut Vec<Lit>, literal: Lit) -> Result<(), NoMemory>
    ensures { OnOk result (literals.new.items ≡ with_literal literals.old.items literal) }
{
    if !has(literals, literal) {
        literals.push(literal)?;
    }
    Ok(())
}

/// Adds a clause, unless it has both signs of a variable: such a clause is always true.
fn add_clause(clauses: &mut Clauses, clause: &[Lit]) -> Result<(), NoMemory>
    ensures { OnOk result (clauses.new ≡ with_clause clauses.old clause.now) }
{
    if has_distinct_variables(clause) {
        clauses.push(clause)?;
    }
    Ok(())
}

/// Takes one more word, `literals` being the literals since the last end.
fn take(clauses: &mut Clauses, literals: &mut Vec<Lit>, word: Word) -> Result<(), NoMemory>
    ensures { OnOk result (record { clauses = clauses.new; literals = literals.new.items } ≡ after (record { clauses = clauses.old; literals = literals.old.items }) word) }
{
    match word {
        Word::Literal(literal) => add_literal(literals, literal),
        Word::End => {
            add_clause(clauses, literals)?;
            literals.clear();
            Ok(())
        }
    }
}

/// The clauses that the words give, each of which is that of a number.
fn clauses_of(alloc: Global, numbers: &[i32]) -> Result<Clauses, NoMemory>
    ensures { IfOk result (λ clauses. clauses ≡ clauses_of (map word_of numbers.now)) }
{
    let mut clauses = Clauses::new(alloc);
    let mut literals = Vec::new(alloc);
    for number in numbers {
        take(&mut clauses, &mut literals, word_of(*number))?;
    }
    Ok(clauses)
}

/// The words of a text that is to be UTF-8.
fn words_in(alloc: Global, text: &[u8]) -> Result<Words, FormErr>
    ensures { IfOk result (λ read. All (λ number. IsNumberWithin read.problem.vars number) read.numbers.items) }
{
    match str::from_utf8(text) {
        Ok(text) => read_words(alloc, text),
        Err(_) => Err(FormErr::NotText),
    }
}

/// Reads a formula in DIMACS CNF. A literal that a clause has already is dropped, and so is a clause with both signs of a
/// variable. The text's memory is given back before the clauses are made.
#[tactic(auto, using(crate::proofs::Within::within))]
pub fn read_form(alloc: Global, text: Vec<u8>) -> Result<Form, FormErr>
    ensures within { IfOk result (λ form. AreWithin form.vars form.clauses) }
    ensures few { IfOk result (λ form. length form.clauses < 2 ^ 31) }
{
    let read = words_in(alloc, &text)?;
    drop(text);
    let clauses = clauses_of(alloc, &read.numbers)?;
    if clauses.len() as u64 >= CLAUSES_END {
        return Err(FormErr::TooMany);
    }
    Ok(Form {
        vars: read.problem.vars,
        clauses,
    })
}
