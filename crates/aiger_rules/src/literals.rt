//! The literals that rows define and read.
ghost use Rattle.std.specs.Prelude.{◌≡◌, ℕ, ◌<◌, ◌≤◌, false, length, IfOk, IfErr, IfNone, IfSome};
ghost use Rattle.aiger_text.specs.Content.{content_of};
ghost use Rattle.aiger_rules.specs.First.{place_of};
ghost use Rattle.aiger_rules.specs.Literals.{defined, definer, is_bad_definition, is_bad_read, is_misuse, misuses, some_read, IsFirstMisuse, IsUsedWell};
ghost use Rattle.aiger_rules.specs.Refusals.{LiteralCause};

use crate::firsts::Firsts;
use aiger_text::{AigerErr, Content, Row};
use loc_base::NoMemory;
use std::alloc::Global;

/// The literal that a row defines.
pub(crate) fn defined(row: Row) -> Option<u64>
    ensures { result ≡ defined row }
{
    match row {
        Row::Input { literal } => Some(u64::from(literal)),
        Row::Latch { literal, .. } => Some(u64::from(literal)),
        Row::Output { .. } => None,
        Row::And { literal, .. } => Some(u64::from(literal)),
    }
}

/// The row that defines each literal: the first one.
#[tactic(auto, using(crate::proofs::FirstLaws::first_steps))]
fn definers_of(alloc: Global, rows: &[Row]) -> Result<Firsts, NoMemory>
    ensures { IfOk result (λ firsts. (literal : ℕ) → place_of firsts literal ≡ definer rows.now literal) }
{
    let mut definers = Firsts::new(alloc);
    for (number, row) in rows.iter().enumerate() {
        definers.meet(defined(*row), number)?;
    }
    Ok(definers)
}

/// What a literal is held against: the greatest variable, and which row defines each literal.
#[derive(Clone, Copy)]
struct Literals<'a> {
    most: u32,
    definers: &'a Firsts,
}

impl Literals<'_> {
    /// Whether the row of a number may not define a literal.
    fn is_bad_definition(&self, number: usize, literal: u64) -> bool
        ensures { result ≡ is_bad_definition self.now.most (place_of self.now.definers.now) number literal }
    {
        literal % 2 == 1
            || literal < 2
            || 2 * u64::from(self.most) < literal
            || self.definers.find(literal) != Some(number)
    }

    /// Whether a literal may not be read.
    fn is_bad_read(&self, literal: u32) -> bool
        ensures { result ≡ is_bad_read self.now.most (place_of self.now.definers.now) literal }
    {
        2 * u64::from(self.most) + 1 < u64::from(literal)
            || 2 <= literal && self.definers.find(u64::from(literal / 2 * 2)).is_none()
    }

    /// Whether a row reads a literal that it may not read.
    fn misreads(&self, row: Row) -> bool
        ensures { result ≡ some_read (is_bad_read self.now.most (place_of self.now.definers.now)) row }
    {
        match row {
            Row::Input { .. } => false,
            Row::Latch { next, .. } => self.is_bad_read(next),
            Row::Output { literal } => self.is_bad_read(literal),
            Row::And { left, right, .. } => self.is_bad_read(left) || self.is_bad_read(right),
        }
    }

    /// Whether the row of a number has a literal that is wrong.
    fn misuses(&self, number: usize, row: Row) -> bool
        ensures { result ≡ misuses self.now.most (place_of self.now.definers.now) number row }
    {
        let misdefines = match defined(row) {
            Some(literal) => self.is_bad_definition(number, literal),
            None => false,
        };
        misdefines || self.misreads(row)
    }

    /// The number of the first row that has a wrong literal.
    #[tactic(auto, using(crate::proofs::LiteralSteps::misuse_steps))]
    fn first_misuse(&self, rows: &[Row]) -> Option<usize>
        requires { (literal : ℕ) → place_of self.now.definers.now literal ≡ definer rows.now literal }
        ensures none { IfNone result ((number : ℕ) → is_misuse self.now.most rows.now number ≡ false) }
        ensures some { IfSome result (IsFirstMisuse self.now.most rows.now) }
        ensures within { IfSome result (λ number. number < length rows.now) }
    {
        for (number, row) in rows.iter().enumerate() {
            if self.misuses(number, *row) {
                return Some(number);
            }
        }
        None
    }
}

/// The row that defines each literal, where all literals are used well; else the first line that has a wrong one.
pub fn check_literals(alloc: Global, content: &Content<'_>) -> Result<Firsts, AigerErr>
    requires { length content.now.rows.items ≤ 17179869180 }
    ensures well { IfOk result (λ _. IsUsedWell (content_of content.now)) }
    ensures definers { IfOk result (λ firsts. (literal : ℕ) → place_of firsts literal ≡ definer content.now.rows.items literal) }
    ensures err { IfErr result (LiteralCause (content_of content.now)) }
{
    let rows = content.rows.as_slice();
    let definers = definers_of(alloc, rows)?;
    let literals = Literals {
        most: content.counts.most,
        definers: &definers,
    };
    match literals.first_misuse(rows) {
        Some(number) => Err(AigerErr::Literal(number as u64 + 2)),
        None => Ok(definers),
    }
}
