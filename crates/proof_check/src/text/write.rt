ghost use Rattle.std.specs.Prelude.{◌≡◌, ◌*◌, ◌<◌, ◌++◌, ◌∷◌, [], length, decimal, map, OnOk};
ghost use Rattle.hex.specs.Hex.{encode_lower, IsBytes};
ghost use Rattle.clause_base.specs.Steps.{step_at};
ghost use Rattle.proof_check.specs.Text.{IsDigest, inputs_line, literal_text, letter, spaced, chain_words, step_line};

use clause_base::{Lit, Log, StepKind};
use hex::encode_to_slice;
use itoa::Buffer;
use loc_base::{Bytes, Digest, NoMemory};

/// Appends a space and the number in decimal.
fn write_number(text: &mut Bytes, number: u32) -> Result<(), NoMemory>
    ensures { OnOk result (text.new ≡ text.old ++ 32 ∷ decimal number) }
{
    let mut buffer = Buffer::new();
    text.push(b' ')?;
    text.append(buffer.format(number).as_bytes())
}

/// Appends a space and the literal.
fn write_literal(text: &mut Bytes, literal: Lit) -> Result<(), NoMemory>
    ensures { OnOk result (text.new ≡ text.old ++ 32 ∷ literal_text literal) }
{
    if !literal.negated {
        return write_number(text, literal.var);
    }
    let mut buffer = Buffer::new();
    text.append(b" -")?;
    text.append(buffer.format(literal.var).as_bytes())
}

/// Appends the literals, each after a space.
fn write_clause(text: &mut Bytes, literals: &[Lit]) -> Result<(), NoMemory>
    ensures { OnOk result (text.new ≡ text.old ++ spaced (map literal_text literals.now)) }
{
    for literal in literals {
        write_literal(text, *literal)?;
    }
    Ok(())
}

/// Appends the numbers, each after a space.
fn write_numbers(text: &mut Bytes, numbers: &[u32]) -> Result<(), NoMemory>
    ensures { OnOk result (text.new ≡ text.old ++ spaced (map decimal numbers.now)) }
{
    for number in numbers {
        write_number(text, *number)?;
    }
    Ok(())
}

/// Appends the colon and the chain, where a step of that kind has one.
fn write_chain(text: &mut Bytes, kind: StepKind, chain: &[u32]) -> Result<(), NoMemory>
    ensures { OnOk result (text.new ≡ text.old ++ spaced (chain_words kind chain.now)) }
{
    match kind {
        StepKind::Block => Ok(()),
        StepKind::Learned | StepKind::Derived => {
            text.append(b" :")?;
            write_numbers(text, chain)
        }
    }
}

/// The letter of a step of that kind.
fn letter_of(kind: StepKind) -> u8
    ensures { result ≡ letter kind }
{
    match kind {
        StepKind::Block => b'b',
        StepKind::Learned => b'l',
        StepKind::Derived => b'd',
    }
}

/// Appends the line of the step at that place, with its newline.
pub(crate) fn write_step(text: &mut Bytes, log: &Log, place: usize) -> Result<(), NoMemory>
    requires { place < length log.now }
    ensures { OnOk result (text.new ≡ text.old ++ (step_line (step_at log.now place) ++ 10 ∷ [])) }
{
    let kind = log.kind(place);
    text.push(letter_of(kind))?;
    write_clause(text, log.clause(place))?;
    write_chain(text, kind, log.chain(place))?;
    text.push(b'\n')
}

/// Writes the bytes in lower-case hex digits.
fn spell(bytes: &[u8], digits: &mut [u8])
    requires { length digits.old ≡ 2 * length bytes.now }
    ensures digits { digits.new ≡ encode_lower bytes.now }
    ensures bytes { IsBytes bytes.now }
{
    if encode_to_slice(bytes, digits).is_err() {
        unreachable!()
    }
}

/// Appends the line of the digest, with its newline.
pub(crate) fn write_inputs(text: &mut Bytes, digest: &Digest) -> Result<(), NoMemory>
    ensures text { OnOk result (text.new ≡ text.old ++ (inputs_line digest.now ++ 10 ∷ [])) }
    ensures digest { IsDigest digest.now }
{
    let mut digits = [0u8; 64];
    spell(digest.bytes.as_slice(), &mut digits);
    text.append(b"inputs ")?;
    text.append(digits.as_slice())?;
    text.push(b'\n')
}
