//! The writes of a listing, each with the text that it needs.
ghost use Rattle.std.specs.Prelude.{◌≡◌, ◌∷◌, [], ◌++◌, ℕ, List, All, IfOk, Option, IsSome, OnOk, true, drop};
ghost use Rattle.log_portions.specs.Portions.{head_text, steps_text};
ghost use Rattle.proof_check.specs.Text.{IsDigest};
ghost use Rattle.report_doc.specs.Lines.{AreWithin, IsMemberOf};
ghost use Rattle.write_order.specs.Writes.{Leaves, PrintCause, WriteCause, begin_text as begin_of, on_shelf, on_sink, print_piece, put_piece};
ghost use Rattle.list_writer.specs.Jobs.{asked_of};
ghost use Rattle.list_writer.specs.Lines.{ending_line, memory_line};
ghost use Rattle.list_writer.specs.Texts.{lines_of};

use crate::job::Job;
use crate::lines::{ending_line, memory_line};
use clause_base::Log;
use design_core::SetWithValues;
use io_ports::{PutErr, Shelf, Sink};
use loc_base::{Digest, NoMemory};
use log_portions::{head_text, portion};
use printed_text::push_bytes;
use refusal::{Note, Notes};
use report_doc::set_lines;
use report_doc::types::Ending;
use std::alloc::Global;
use write_order::{WriteErr, begin_text, print_piece, put_piece};

/// Asks whether a text can be begun under a name. Where it can't be, it is told.
pub(crate) fn ask<S: Shelf, N: Notes>(
    shelf: &mut S,
    name: &str,
    notes: &mut N,
) -> Result<(), WriteErr>
    ensures tells { S.tells shelf.new ≡ S.tells shelf.old }
    ensures texts { S.texts shelf.new ≡ S.texts shelf.old }
    ensures written { S.written shelf.new ≡ S.written shelf.old }
    ensures cause { WriteCause (S.faults shelf.old) (S.faults shelf.new) result }
{
    match shelf.can_begin(name) {
        Ok(()) => Ok(()),
        Err(PutErr::Failed(cause)) => {
            notes.note(&Note::Unwritten { name, cause });
            Err(WriteErr::Failed)
        }
        Err(PutErr::NoMemory) => Err(WriteErr::NoMemory),
    }
}

/// Begins the log.
pub(crate) fn begin_log<S: Shelf, N: Notes>(
    job: &Job,
    shelf: &mut S,
    notes: &mut N,
) -> Result<(), WriteErr>
    ensures tells { S.tells shelf.new ≡ S.tells shelf.old }
    ensures texts { S.texts shelf.new ≡ S.texts shelf.old }
    ensures left { S.tells shelf.old ≡ true → (printed : List ℕ)
        → Leaves (begin_of job.now.log.now ∷ []) (on_shelf (S.written shelf.old) (S.written shelf.new) printed) result }
    ensures begun { S.tells shelf.old ≡ true → OnOk result (IsSome (S.written shelf.new job.now.log.now)) }
    ensures cause { WriteCause (S.faults shelf.old) (S.faults shelf.new) result }
{
    begin_text(shelf, job.log, notes)
}

/// The head of the log's text, with the lines of steps.
pub(crate) fn head_with(alloc: Global, inputs: &Digest, log: &Log) -> Result<Vec<u8>, NoMemory>
    ensures text { IfOk result (λ text. text.items ≡ head_text inputs.now ++ steps_text log.now) }
    ensures digest { OnOk result (IsDigest inputs.now) }
{
    let mut text = head_text(alloc, inputs)?;
    push_bytes(&mut text, &portion(alloc, log, 0)?)?;
    Ok(text)
}

/// Puts the head of the log and, in the same piece, the lines of the steps that it begins with.
#[tactic(auto, using(crate::proofs::Putting::put_rules))]
pub(crate) fn put_head<S: Shelf, N: Notes>(
    alloc: Global,
    job: &Job,
    log: &Log,
    shelf: &mut S,
    notes: &mut N,
) -> Result<(), WriteErr>
    requires begun { S.tells shelf.old ≡ true → IsSome (S.written shelf.old job.now.log.now) }
    ensures tells { S.tells shelf.new ≡ S.tells shelf.old }
    ensures texts { S.texts shelf.new ≡ S.texts shelf.old }
    ensures left { S.tells shelf.old ≡ true → (printed : List ℕ)
        → Leaves (put_piece job.now.log.now (head_text job.now.inputs ++ steps_text log.now) ∷ [])
        (on_shelf (S.written shelf.old) (S.written shelf.new) printed) result }
    ensures begun { S.tells shelf.old ≡ true → OnOk result (IsSome (S.written shelf.new job.now.log.now)) }
    ensures digest { OnOk result (IsDigest job.now.inputs) }
    ensures cause { WriteCause (S.faults shelf.old) (S.faults shelf.new) result }
{
    match head_with(alloc, &job.inputs, log) {
        Ok(head) => put_piece(shelf, job.log, &head, notes),
        Err(NoMemory) => Err(WriteErr::NoMemory),
    }
}

/// A log of which the steps before a place are written.
#[derive(Clone, Copy)]
pub(crate) struct Written<'a> {
    pub(crate) log: &'a Log,
    pub(crate) before: usize,
}

/// Puts the lines of the steps that aren't written.
#[tactic(auto, using(crate::proofs::Putting::put_rules))]
pub(crate) fn put_steps<S: Shelf, N: Notes>(
    alloc: Global,
    job: &Job,
    written: &Written,
    shelf: &mut S,
    notes: &mut N,
) -> Result<(), WriteErr>
    requires begun { S.tells shelf.old ≡ true → IsSome (S.written shelf.old job.now.log.now) }
    ensures tells { S.tells shelf.new ≡ S.tells shelf.old }
    ensures texts { S.texts shelf.new ≡ S.texts shelf.old }
    ensures left { S.tells shelf.old ≡ true → (printed : List ℕ)
        → Leaves (put_piece job.now.log.now (steps_text (drop written.now.before written.now.log.now)) ∷ [])
        (on_shelf (S.written shelf.old) (S.written shelf.new) printed) result }
    ensures begun { S.tells shelf.old ≡ true → OnOk result (IsSome (S.written shelf.new job.now.log.now)) }
    ensures cause { WriteCause (S.faults shelf.old) (S.faults shelf.new) result }
{
    match portion(alloc, written.log, written.before) {
        Ok(text) => put_piece(shelf, job.log, &text, notes),
        Err(NoMemory) => Err(WriteErr::NoMemory),
    }
}

/// Prints the lines of a set.
#[tactic(auto, using(crate::proofs::Putting::put_rules))]
pub(crate) fn print_set<O: Sink, N: Notes>(
    alloc: Global,
    job: &Job,
    set: &SetWithValues,
    out: &mut O,
    notes: &mut N,
) -> Result<(), WriteErr>
    requires members { All (IsMemberOf (asked_of job.now).problem.groups) set.now.members }
    requires within { AreWithin (asked_of job.now).problem.design.places.items (asked_of job.now).problem.groups }
    ensures tells { O.tells out.new ≡ O.tells out.old }
    ensures left { O.tells out.old ≡ true → (written : List ℕ → Option (List ℕ))
        → Leaves (print_piece (lines_of (asked_of job.now) set.now) ∷ []) (on_sink written (O.written out.old) (O.written out.new)) result }
    ensures cause { PrintCause (O.faults out.old) (O.faults out.new) result }
{
    let question = &job.question;
    match set_lines(alloc, set, question.groups, &question.design.places) {
        Ok(lines) => print_piece(out, lines.as_slice(), notes),
        Err(NoMemory) => Err(WriteErr::NoMemory),
    }
}

/// Prints the line of an ending, with the number of sets.
#[tactic(auto, using(crate::proofs::Putting::put_rules))]
pub(crate) fn print_ending<O: Sink, N: Notes>(
    alloc: Global,
    ending: Ending,
    count: usize,
    out: &mut O,
    notes: &mut N,
) -> Result<(), WriteErr>
    ensures tells { O.tells out.new ≡ O.tells out.old }
    ensures left { O.tells out.old ≡ true → (written : List ℕ → Option (List ℕ))
        → Leaves (print_piece (ending_line ending count) ∷ []) (on_sink written (O.written out.old) (O.written out.new)) result }
    ensures cause { PrintCause (O.faults out.old) (O.faults out.new) result }
{
    match ending_line(alloc, ending, count) {
        Ok(line) => print_piece(out, &line, notes),
        Err(NoMemory) => Err(WriteErr::NoMemory),
    }
}

/// Prints that memory was wanted.
#[tactic(auto, using(crate::proofs::Putting::put_rules))]
pub(crate) fn print_memory<O: Sink, N: Notes>(
    alloc: Global,
    sets: Option<usize>,
    out: &mut O,
    notes: &mut N,
) -> Result<(), WriteErr>
    ensures tells { O.tells out.new ≡ O.tells out.old }
    ensures left { O.tells out.old ≡ true → (written : List ℕ → Option (List ℕ))
        → Leaves (print_piece (memory_line sets) ∷ []) (on_sink written (O.written out.old) (O.written out.new)) result }
    ensures cause { PrintCause (O.faults out.old) (O.faults out.new) result }
{
    match memory_line(alloc, sets) {
        Ok(line) => print_piece(out, &line, notes),
        Err(NoMemory) => Err(WriteErr::NoMemory),
    }
}
