//! The text of a formula as numbers, each of which is a word: a literal, or the end of a clause.
ghost use Rattle.std.specs.Prelude.{◌≡◌, ◌↔◌, All, IfOk, OnOk, IsTrue, None};
ghost use Rattle.dimacs_solver.specs.Words.{word_of, IsNumberWithin, AreNumbersOf, IsWordWithin};

use crate::error::FormErr;
use clause_base::Lit;
use std::alloc::Global;

/// The greatest number of variables.
pub const MOST_VARIABLES: u32 = 4_000_000;

/// A word of a clause: a literal, or the end.
#[derive(Clone, Copy, Debug, PartialEq, Eq)]
pub enum Word {
    Literal(Lit),
    End,
}

/// What the line `p cnf VARS CLAUSES` says.
#[derive(Clone, Copy, Debug, PartialEq, Eq)]
pub struct Problem {
    pub vars: u32,
    pub clauses: u32,
}

/// The words of a text's clauses, each as the number that it is, and its problem line.
#[derive(Drop)]
pub struct Words {
    pub problem: Problem,
    pub numbers: Vec<i32>,
}

/// The word that a number is: 0 ends a clause, and a negative number is a negated variable.
pub fn word_of(number: i32) -> Word
    ensures { result ≡ word_of number }
{
    if number == 0 {
        return Word::End;
    }
    Word::Literal(Lit {
        var: number.unsigned_abs(),
        negated: number < 0,
    })
}

/// Whether the word is an end, or its variable is from 1 to `vars`.
fn is_word_within(word: Word, vars: u32) -> bool
    ensures { IsTrue result ↔ IsWordWithin vars word }
{
    match word {
        Word::Literal(literal) => 1 <= literal.var && literal.var <= vars,
        Word::End => true,
    }
}

/// Reads one word of a clause.
fn take_word(vars: u32, numbers: &mut Vec<i32>, text: &str, line: u64) -> Result<(), FormErr>
    requires { All (λ number. IsNumberWithin vars number) numbers.old.items }
    ensures { OnOk result (All (λ number. IsNumberWithin vars number) numbers.new.items) }
{
    let Ok(number) = text.parse::<i32>() else {
        return Err(FormErr::BadWord { line });
    };
    if !is_word_within(word_of(number), vars) {
        return Err(FormErr::OutOfRange { line });
    }
    numbers.push(number)?;
    Ok(())
}

/// Reads a line of words.
fn take_words(vars: u32, numbers: &mut Vec<i32>, text: &str, line: u64) -> Result<(), FormErr>
    requires { All (λ number. IsNumberWithin vars number) numbers.old.items }
    ensures { OnOk result (All (λ number. IsNumberWithin vars number) numbers.new.items) }
{
    for word in text.split_whitespace() {
        take_word(vars, numbers, word, line)?;
    }
    Ok(())
}

/// What a problem line says.
fn problem_of(text: &str) -> Option<Problem> {
    let mut words = text.split_whitespace();
    if words.next()? != "p" || words.next()? != "cnf" {
        return None;
    }
    let vars = words.next()?.parse::<u32>().ok()?;
    let clauses = words.next()?.parse::<u32>().ok()?;
    if words.next().is_some() || vars > MOST_VARIABLES {
        return None;
    }
    Some(Problem { vars, clauses })
}

/// Reads the problem line.
fn take_problem(problem: Option<Problem>, text: &str, line: u64) -> Result<Problem, FormErr>
    ensures { IfOk result (λ _. problem ≡ None) }
{
    match problem {
        Some(_) => Err(FormErr::BadProblem { line }),
        None => problem_of(text).ok_or(FormErr::BadProblem { line }),
    }
}

/// Reads a line: a comment, the problem line, or words of clauses.
fn take_line(
    problem: &mut Option<Problem>,
    numbers: &mut Vec<i32>,
    text: &str,
    line: u64,
) -> Result<(), FormErr>
    requires { AreNumbersOf problem.old numbers.old.items }
    ensures { OnOk result (AreNumbersOf problem.new numbers.new.items) }
{
    if text.is_empty() || text.starts_with('c') {
        return Ok(());
    }
    if text.starts_with('p') {
        *problem = Some(take_problem(*problem, text, line)?);
        return Ok(());
    }
    match *problem {
        Some(known) => take_words(known.vars, numbers, text, line),
        None => Err(FormErr::NoProblem),
    }
}

/// How many clauses the numbers end.
fn ends(numbers: &[i32]) -> usize {
    numbers.iter().filter(|number| **number == 0).count()
}

/// Whether the numbers, if any, end with an end of a clause.
fn is_ended(numbers: &[i32]) -> bool {
    match numbers.last() {
        Some(number) => *number == 0,
        None => true,
    }
}

/// Reads a text of lines: comments begin with `c`, one line `p cnf VARS CLAUSES` stands before all clauses, and these are
/// numbers that stand apart, each clause ended by 0.
pub fn read_words(alloc: Global, text: &str) -> Result<Words, FormErr>
    ensures { IfOk result (λ read. All (λ number. IsNumberWithin read.problem.vars number) read.numbers.items) }
{
    let mut problem = None;
    let mut numbers = Vec::new(alloc);
    let mut place = 0u64;
    for line in text.lines() {
        place = place.saturating_add(1);
        take_line(&mut problem, &mut numbers, line.trim(), place)?;
    }
    let problem = problem.ok_or(FormErr::NoProblem)?;
    if !is_ended(&numbers) {
        return Err(FormErr::Unended);
    }
    if ends(&numbers) as u64 != u64::from(problem.clauses) {
        return Err(FormErr::WrongCount);
    }
    Ok(Words { problem, numbers })
}
