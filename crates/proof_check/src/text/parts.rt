//! The lines of the steps, read by several workers, a part of the text each.

ghost use Rattle.std.specs.Prelude.{◌≡◌, ◌-◌, ◌<◌, ◌≤◌, ◌++◌, true, [], ◌∷◌, length, take, All, IfOk, IfSome, OnOk};
ghost use Rattle.clause_base.specs.declared.log.Step.{Step};
ghost use Rattle.proof_check.specs.Text.{pieces};
ghost use Rattle.proof_check.specs.Lines.{AreStepLines, IsFirstBadStep};
ghost use Rattle.proof_check.specs.Parts.{AreReadAs, IsPartOf, IsTextOf, Covers, Joined, ReadAs};
ghost use Rattle.proof_check.specs.Errors.{OnSyntax};

use crate::text::steps::read_steps;
use crate::types::LogErr;
use clause_base::Log;
use loc_base::NoMemory;
use std::alloc::Global;
use std::thread::{Threads, map_chunks};

/// A part of a text, from one place up to another.
#[derive(Clone, Copy)]
pub(crate) struct Part {
    pub(crate) from: usize,
    pub(crate) end: usize,
}

/// The place behind the first newline at that place or behind it, or the end of the text.
fn end_behind(text: &[u8], place: usize) -> usize
    requires { place < length text.now }
    ensures low { place < result }
    ensures high { result ≤ length text.now }
{
    for at in place..text.len() {
        if text[at] == b'\n' {
            return at + 1;
        }
    }
    text.len()
}

/// The text in parts of so many bytes or a little more, so that each ends behind a newline; the last may be shorter.
fn parts_of(alloc: Global, text: &[u8], size: usize) -> Result<Vec<Part>, NoMemory>
    requires { 0 < size }
    ensures parts { IfOk result (λ parts. All (IsPartOf text.now) parts.items) }
    ensures cover { IfOk result (λ parts. Covers 0 (length text.now) parts.items) }
{
    let mut parts = Vec::new(alloc);
    let mut from = 0;
    while from < text.len() {
        let last = from + size.min(text.len() - from) - 1;
        let end = end_behind(text, last);
        parts.push(Part { from, end })?;
        from = end;
    }
    Ok(parts)
}

/// The log whose steps' lines the part is; `None` where it is none.
fn read_part(alloc: Global, text: &[u8], part: Part) -> Result<Option<Log>, NoMemory>
    requires { IsPartOf text.now part }
    ensures { IfOk result (λ read. IfSome read (ReadAs text.now part)) }
{
    match read_steps(alloc, &text[part.from..part.end]) {
        Ok(log) => Ok(Some(log)),
        Err(LogErr::LogSyntax { line: _ }) => Ok(None),
        Err(LogErr::NoMemory) => Err(NoMemory),
    }
}

/// The only part of a list.
fn only_part(parts: &[Part]) -> Part
    requires { length parts.now ≡ 1 }
    ensures { parts.now ≡ result ∷ [] }
{
    parts[0]
}

/// Appends the steps of another log.
fn append(log: &mut Log, more: &Log) -> Result<(), NoMemory>
    ensures { OnOk result (log.new ≡ log.old ++ more.now) }
{
    for place in 0..more.len() {
        log.push(more.kind(place), more.clause(place), more.chain(place))?;
    }
    Ok(())
}

/// Appends what was read of all parts. `false` where one was none.
fn join(log: &mut Log, read: &[Result<Option<Log>, NoMemory>]) -> Result<bool, NoMemory>
    ensures { IfOk result (λ all. all ≡ true → Joined read.now log.old log.new) }
{
    match read.split_first() {
        Some((first, rest)) => match first {
            Ok(Some(part)) => {
                append(log, part)?;
                join(log, rest)
            }
            Ok(None) => Ok(false),
            Err(e) => Err(*e),
        },
        None => Ok(true),
    }
}

/// The log whose steps' lines the text is, by several workers, each of which reads a part of so many bytes or a little more;
/// `None` where a part isn't right.
fn read_in_parts<R: Threads + Sync>(
    rt: &R,
    alloc: Global,
    text: &[u8],
    size: usize,
) -> Result<Option<Log>, NoMemory>
    requires { 0 < size }
    ensures { IfOk result (λ read. IfSome read (IsTextOf text.now)) }
{
    let parts = parts_of(alloc, text, size)?;
    let read = |_number: usize, part: &[Part]| -> Result<Option<Log>, NoMemory>
        requires { All (IsPartOf text.now) part.now × (length part.now ≡ 1) }
        ensures { IfOk result (AreReadAs text.entry.now part.now) }
    { read_part(alloc, text, only_part(part)) };
    let read = map_chunks(rt, alloc, &parts, 1, &read)?;
    let mut log = Log::new(alloc);
    if join(&mut log, &read)? {
        Ok(Some(log))
    } else {
        Ok(None)
    }
}

/// What `read_steps` reads, by so many workers, each of which reads a part of the text. Where a part isn't right, one reads the whole
/// text, for the first line that isn't.
pub(crate) fn read_steps_by<R: Threads + Sync>(
    rt: &R,
    alloc: Global,
    text: &[u8],
    workers: u32,
) -> Result<Log, LogErr>
    requires { 0 < workers }
    ensures ok { IfOk result (λ log. AreStepLines (pieces text.now) log) }
    ensures bad { OnSyntax result (λ line. (3 ≤ line) × IsFirstBadStep (pieces text.now) (line - 3)) }
{
    if workers == 1 {
        return read_steps(alloc, text);
    }
    let size = text.len().div_ceil(workers as usize).max(1);
    match read_in_parts(rt, alloc, text, size)? {
        Some(log) => Ok(log),
        None => read_steps(alloc, text),
    }
}
