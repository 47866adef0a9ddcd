//! The head of a log's text, and the lines of its steps from a place on.
ghost use Rattle.std.specs.Prelude.{◌≡◌, ◌*◌, IfOk, drop, length};
ghost use Rattle.hex.specs.Hex.{encode_lower, IsBytes};
ghost use Rattle.proof_check.specs.Text.{IsDigest};
ghost use Rattle.log_portions.specs.Portions.{head_text, steps_text};

use crate::lines::push_step;
use clause_base::Log;
use hex::encode_to_slice;
use loc_base::{Digest, NoMemory};
use printed_text::push_bytes;
use std::alloc::Global;

/// Writes bytes in lower-case hex digits.
fn spell(bytes: &[u8], digits: &mut [u8])
    requires { length digits.old ≡ 2 * length bytes.now }
    ensures digits { digits.new ≡ encode_lower bytes.now }
    ensures bytes { IsBytes bytes.now }
{
    if encode_to_slice(bytes, digits).is_err() {
        unreachable!()
    }
}

/// The two first lines of the text of a log for inputs with this digest.
pub fn head_text(alloc: Global, inputs: &Digest) -> Result<Vec<u8>, NoMemory>
    ensures text { IfOk result (λ text. text.items ≡ head_text inputs.now) }
    ensures digest { IsDigest inputs.now }
{
    let mut digits = [0u8; 64];
    spell(inputs.bytes.as_slice(), &mut digits);
    let mut text = Vec::new(alloc);
    push_bytes(&mut text, b"localise-log 1\ninputs ")?;
    push_bytes(&mut text, digits.as_slice())?;
    push_bytes(&mut text, b"\n")?;
    Ok(text)
}

/// The lines of the steps from a place on, counted from 0; none where the log has no step there.
pub fn portion(alloc: Global, log: &Log, from: usize) -> Result<Vec<u8>, NoMemory>
    ensures { IfOk result (λ text. text.items ≡ steps_text (drop from log.now)) }
{
    let mut text = Vec::new(alloc);
    for place in from..log.len() {
        push_step(&mut text, log, place)?;
    }
    Ok(text)
}
