//! Whether a session, a report with a log, is of the inputs.
ghost use Rattle.std.specs.Prelude.{◌≡◌, ◌++◌, IfErr, IfOk, IsOk, OnOk};
ghost use Rattle.hex.specs.Hex.{encode_lower};
ghost use Rattle.refusal.specs.Ends.{HasCause};
ghost use Rattle.session_reading.specs.Refusals.{AreSame, OtherRefused, other_line};

use hex::encode_to_slice;
use loc_base::{Digest, NoMemory};
use printed_text::push_bytes;
use refusal::LastLine;
use std::alloc::Global;

/// The digests of a report, of a log, and of the inputs.
#[derive(Clone, Copy, Debug)]
pub struct Digests {
    pub report: Digest,
    pub log: Digest,
    pub inputs: Digest,
}

/// Appends a digest as 64 lower-case hex digits.
fn push_digest(text: &mut Vec<u8>, digest: &Digest) -> Result<(), NoMemory>
    ensures { OnOk result (text.new.items ≡ text.old.items ++ encode_lower digest.now.bytes) }
{
    let mut digits = [0u8; 64];
    encode_to_slice(digest.bytes.as_slice(), &mut digits).unwrap();
    push_bytes(text, digits.as_slice())
}

/// The line that says that a session's digest isn't the inputs'.
fn other_line_text(alloc: Global, session: &Digest, inputs: &Digest) -> Result<Vec<u8>, NoMemory>
    ensures { IfOk result (λ text. text.items ≡ other_line session.now inputs.now) }
{
    let mut text = Vec::new(alloc);
    push_bytes(&mut text, b"input other ")?;
    push_digest(&mut text, session)?;
    push_bytes(&mut text, b" ")?;
    push_digest(&mut text, inputs)?;
    push_bytes(&mut text, b"\n")?;
    Ok(text)
}

/// Refuses a report and a log that aren't of the inputs, by the digest of the first of the two.
pub fn same_inputs(alloc: Global, digests: &Digests) -> Result<(), LastLine>
    ensures same { IfOk result (λ _. AreSame digests.now) }
    ensures refused { IfErr result (HasCause (OtherRefused digests.now)) }
    ensures only { AreSame digests.now → IsOk result }
{
    let Digests {
        report,
        log,
        inputs,
    } = digests;
    if report != inputs {
        return Err(LastLine::of_made(3, other_line_text(alloc, report, inputs)));
    }
    if log != inputs {
        return Err(LastLine::of_made(3, other_line_text(alloc, log, inputs)));
    }
    Ok(())
}
