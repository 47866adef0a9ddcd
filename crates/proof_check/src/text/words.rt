ghost use Rattle.std.specs.Prelude.{◌≡◌, IfOk, IsTrue, MatchOption, map};
ghost use Rattle.clause_base.specs.Literal.{has_distinct_variables};
ghost use Rattle.proof_check.specs.LineWords.{read_literal, take_word, kind_of, is_whole};

use crate::text::number::number_of;
use clause_base::{Lit, StepKind};
use loc_base::NoMemory;
use std::alloc::Global;
use std::marker::Model;

/// The greatest variable.
pub(crate) const MOST_VARIABLE: u32 = 4_000_000;

/// The greatest number of a clause.
pub(crate) const MOST_NUMBER: u32 = u32::MAX;

/// The literal that the word is.
pub(crate) fn literal_of(word: &[u8]) -> Option<Lit>
    ensures { result ≡ read_literal word.now }
{
    let (first, rest) = word.split_first()?;
    if *first == b'-' {
        let var = number_of(rest, MOST_VARIABLE)?;
        return Some(Lit { var, negated: true });
    }
    let var = number_of(word, MOST_VARIABLE)?;
    Some(Lit {
        var,
        negated: false,
    })
}

/// The kind with that letter.
pub(crate) fn kind_with(letter: &[u8]) -> Option<StepKind>
    ensures { result ≡ kind_of letter.now }
{
    match letter {
        b"b" => Some(StepKind::Block),
        b"l" => Some(StepKind::Learned),
        b"d" => Some(StepKind::Derived),
        _ => None,
    }
}
