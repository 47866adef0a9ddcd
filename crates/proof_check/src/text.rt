//! The text of a log, written and read.
//!
//! The first line names the form, the second gives the digest of the inputs, and each further line is a step: `b` with
//! the literals of a block, or `l` or `d` with the literals of a learned or a derived clause, a colon and the chain.
//! Every word stands after one space, and every line ends with a newline.

ghost use Rattle.std.specs.Prelude.{◌≡◌, ◌≢◌, ◌<◌, ◌∷◌, All, IfOk, MatchOption};
ghost use Rattle.proof_check.specs.Text.{pieces, head_line, inputs_line, text_of, CanBeWritten, IsDigest, IsLogText, IsFirstBadLine};
ghost use Rattle.proof_check.specs.Lines.{LacksLine};
ghost use Rattle.proof_check.specs.Errors.{OnSyntax};
ghost use Rattle.proof_check.specs.declared.types.LogText.{LogText};

mod cut;
mod inputs;
mod line_reader;
mod number;
mod parts;
mod seen;
mod steps;
mod words;
mod write;

use crate::text::cut::cut_at;
use crate::text::inputs::digest_of;
use crate::text::parts::read_steps_by;
use crate::text::steps::read_steps;
use crate::text::write::{write_inputs, write_step};
use crate::types::{LogErr, LogText};
use loc_base::{Bytes, Digest, NoMemory};
use std::alloc::Global;
use std::thread::Threads;

/// The first line.
const HEAD: &[u8; 14] = b"localise-log 1";

/// What follows the first line, where that is as it must be.
fn after_head(text: &[u8]) -> Option<&[u8]>
    ensures { MatchOption result (LacksLine 0 (pieces text.now)) (λ rest. pieces text.now ≡ head_line ∷ pieces rest.now) }
{
    let (head, rest) = cut_at(text, b'\n');
    if head == HEAD.as_slice() { rest } else { None }
}

/// The digest of the line that comes next, and what follows it, where that line is as it must be.
fn after_inputs(text: &[u8]) -> Option<(Digest, &[u8])>
    ensures { MatchOption result (LacksLine 1 (pieces text.now)) (λ found. IsDigest found.0 × (pieces text.now ≡ inputs_line found.0 ∷ pieces found.1.now)) }
{
    let (line, rest) = cut_at(text, b'\n');
    let rest = rest?;
    let digest = digest_of(line)?;
    Some((digest, rest))
}

/// The log that the text is. `LogSyntax` comes exactly where it is the text of no log, with the first line that isn't
/// of the form; a line that is lacking, or that no newline ends, isn't.
pub fn read_log(alloc: Global, text: &[u8]) -> Result<LogText, LogErr>
    ensures ok { IfOk result (λ value. IsLogText value × (text.now ≡ text_of value)) }
    ensures syntax { OnSyntax result (λ line. IsFirstBadLine text.now line) }
    ensures refused { OnSyntax result (λ _. (value : LogText) → IsLogText value → text.now ≢ text_of value) }
{
    let Some(rest) = after_head(text) else {
        return Err(LogErr::LogSyntax { line: 1 });
    };
    let Some((inputs, rest)) = after_inputs(rest) else {
        return Err(LogErr::LogSyntax { line: 2 });
    };
    let log = read_steps(alloc, rest)?;
    Ok(LogText { inputs, log })
}

/// What `read_log` reads, by so many workers, each of which reads a part of the text: the same for every number of workers. Where
/// some line isn't of the form, one worker reads the whole text again, for the first that isn't.
pub fn read_log_parallel<R: Threads + Sync>(
    rt: &R,
    alloc: Global,
    text: &[u8],
    workers: u32,
) -> Result<LogText, LogErr>
    requires { 0 < workers }
    ensures ok { IfOk result (λ value. IsLogText value × (text.now ≡ text_of value)) }
    ensures syntax { OnSyntax result (λ line. IsFirstBadLine text.now line) }
    ensures refused { OnSyntax result (λ _. (value : LogText) → IsLogText value → text.now ≢ text_of value) }
{
    let Some(rest) = after_head(text) else {
        return Err(LogErr::LogSyntax { line: 1 });
    };
    let Some((inputs, rest)) = after_inputs(rest) else {
        return Err(LogErr::LogSyntax { line: 2 });
    };
    let log = read_steps_by(rt, alloc, rest, workers)?;
    Ok(LogText { inputs, log })
}

/// The text of the log, which `read_log` reads back.
pub fn log_text(alloc: Global, value: &LogText) -> Result<Bytes, NoMemory>
    requires { All CanBeWritten value.now.log }
    ensures text { IfOk result (λ text. text ≡ text_of value.now) }
    ensures reads_back { IfOk result (λ text. (other : LogText) → IsLogText other → text ≡ text_of other → other ≡ value.now) }
{
    let mut text = Bytes::copy_of(alloc, b"localise-log 1\n")?;
    write_inputs(&mut text, &value.inputs)?;
    for place in 0..value.log.len() {
        write_step(&mut text, &value.log, place)?;
    }
    Ok(text)
}
