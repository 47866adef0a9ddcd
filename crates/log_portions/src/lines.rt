//! The lines of steps, appended to what stands.
ghost use Rattle.std.specs.Prelude.{◌≡◌, ◌<◌, ◌++◌, ◌∷◌, [], OnOk, decimal, length, map};
ghost use Rattle.clause_base.specs.Steps.{step_at};
ghost use Rattle.proof_check.specs.Text.{chain_words, letter, literal_text, spaced, step_line};
ghost use Rattle.log_portions.specs.Portions.{ended};

use clause_base::{Lit, Log, StepKind};
use loc_base::NoMemory;
use printed_text::{push_bytes, push_number};

/// Appends a space and a number.
fn push_word(text: &mut Vec<u8>, number: u32) -> Result<(), NoMemory>
    ensures { OnOk result (text.new.items ≡ text.old.items ++ 32 ∷ decimal number) }
{
    push_bytes(text, b" ")?;
    push_number(text, u64::from(number))
}

/// Appends a space and a literal.
fn push_literal(text: &mut Vec<u8>, literal: Lit) -> Result<(), NoMemory>
    ensures { OnOk result (text.new.items ≡ text.old.items ++ 32 ∷ literal_text literal) }
{
    if !literal.negated {
        return push_word(text, literal.var);
    }
    push_bytes(text, b" -")?;
    push_number(text, u64::from(literal.var))
}

/// Appends literals, each after a space.
fn push_clause(text: &mut Vec<u8>, literals: &[Lit]) -> Result<(), NoMemory>
    ensures { OnOk result (text.new.items ≡ text.old.items ++ spaced (map literal_text literals.now)) }
{
    for literal in literals {
        push_literal(text, *literal)?;
    }
    Ok(())
}

/// Appends numbers, each after a space.
fn push_numbers(text: &mut Vec<u8>, numbers: &[u32]) -> Result<(), NoMemory>
    ensures { OnOk result (text.new.items ≡ text.old.items ++ spaced (map decimal numbers.now)) }
{
    for number in numbers {
        push_word(text, *number)?;
    }
    Ok(())
}

/// Appends the colon and the chain, where a step of that kind has one.
fn push_chain(text: &mut Vec<u8>, kind: StepKind, chain: &[u32]) -> Result<(), NoMemory>
    ensures { OnOk result (text.new.items ≡ text.old.items ++ spaced (chain_words kind chain.now)) }
{
    match kind {
        StepKind::Block => Ok(()),
        StepKind::Learned | StepKind::Derived => {
            push_bytes(text, b" :")?;
            push_numbers(text, chain)
        }
    }
}

/// Appends the letter of a step of that kind.
fn push_letter(text: &mut Vec<u8>, kind: StepKind) -> Result<(), NoMemory>
    ensures { OnOk result (text.new.items ≡ text.old.items ++ letter kind ∷ []) }
{
    match kind {
        StepKind::Block => push_bytes(text, b"b"),
        StepKind::Learned => push_bytes(text, b"l"),
        StepKind::Derived => push_bytes(text, b"d"),
    }
}

/// Appends the line of the step at a place.
pub(crate) fn push_step(text: &mut Vec<u8>, log: &Log, place: usize) -> Result<(), NoMemory>
    requires { place < length log.now }
    ensures { OnOk result (text.new.items ≡ text.old.items ++ ended (step_line (step_at log.now place))) }
{
    let kind = log.kind(place);
    push_letter(text, kind)?;
    push_clause(text, log.clause(place))?;
    push_chain(text, kind, log.chain(place))?;
    push_bytes(text, b"\n")
}
