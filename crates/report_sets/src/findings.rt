//! The report of what a run found.

ghost use Rattle.std.specs.Prelude.{◌≡◌, ◌≤◌, ◌<◌, ◌+◌, ◌*◌, ◌^◌, ◌↔◌, IsTrue, All, IfOk, IfSome, IsSome, length, map};
ghost use Rattle.std.specs.Option.{option_copied};
ghost use Rattle.design_core.specs.Explained.{cycles_before, row_of};
ghost use Rattle.report_sets.specs.Found.{HasRows, report_of, row_texts, rows_texts, set_of, suspect_of, traces_texts, word_text};
ghost use Rattle.report_doc.specs.Lines.{AreWithin};
ghost use Rattle.report_doc.specs.Shape.{AreKinds, CanBeWritten};

use design_core::{Place, SetWithValues, Trace, Values};
use loc_base::{Bits, Digest, Items, Name, NoMemory, Rows};
use printed_text::push_value;
use report_doc::types::{Ending, Report, ReportSet, ReportSuspect};
use report_doc::{CycleTexts, line_of};
use std::alloc::Global;
use suspect_map::{Group, Groups};

/// What a run found, and for which inputs.
#[derive(Clone, Copy)]
pub struct Findings<'a> {
    pub clock: Option<&'a Name>,
    pub ending: Ending,
    /// The digest of the inputs.
    pub inputs: Digest,
    /// The kinds of suspects.
    pub kinds: &'a [Name],
    pub traces: &'a [Trace],
    /// The sets, with a row of values for each cycle of the traces.
    pub sets: &'a [SetWithValues],
    /// The most members of a set.
    pub size: u32,
    /// The suspects, and the places of which they are made.
    pub groups: &'a Groups,
    pub places: &'a [Place],
    pub top: &'a Name,
}

/// The number of cycles of some traces, none where there are 2^32 or more.
#[tactic(auto, using(crate::proofs::SetRows::trace_steps))]
fn cycles_of(traces: &[Trace]) -> Option<u32>
    ensures some { IfSome result (λ cycles. cycles ≡ cycles_before traces.now (length traces.now)) }
    ensures none { cycles_before traces.now (length traces.now) < 2 ^ 32 → IsSome result }
{
    let mut cycles: u32 = 0;
    for trace in traces {
        cycles = cycles.checked_add(trace.cycles)?;
    }
    Some(cycles)
}

/// Whether there is a row of values for each cycle of the traces, and there are fewer than 2^32 cycles.
pub fn has_rows(traces: &[Trace], values: &Values) -> bool
    ensures { IsTrue result ↔ HasRows traces.now values.now }
{
    match cycles_of(traces) {
        Some(cycles) => values.places.len().checked_mul(cycles as usize) == Some(values.rows.len()),
        None => false,
    }
}

/// The words of a row.
fn row_of(values: &Values, row: usize) -> &[Bits]
    requires { (row + 1) * length values.now.places.items ≤ length values.now.rows.items }
    ensures { result.now ≡ row_of values.now.places.items values.now.rows.items row }
{
    let width = values.places.len();
    let from = row * width;
    &values.rows[from..from + width]
}

/// The texts of words.
fn texts_of(alloc: Global, words: &[Bits]) -> Result<Rows<u8>, NoMemory>
    ensures { IfOk result (λ texts. texts ≡ map word_text words.now) }
{
    let mut texts = Rows::new(alloc);
    let mut text = Vec::new(alloc);
    for word in words {
        text.clear();
        push_value(&mut text, *word)?;
        texts.push(&text)?;
    }
    Ok(texts)
}

/// The texts of the rows from one on, so many.
#[tactic(auto, using(crate::proofs::SetRows::row_steps))]
fn rows_texts(
    alloc: Global,
    values: &Values,
    first: usize,
    cycles: u32,
) -> Result<CycleTexts, NoMemory>
    requires rows { (first + cycles) * length values.now.places.items ≤ length values.now.rows.items }
    requires few { first + cycles < 2 ^ 32 }
    ensures { IfOk result (λ texts. texts ≡ rows_texts values.now first cycles) }
{
    let mut texts = CycleTexts::new(alloc);
    for cycle in 0..cycles as usize {
        let row = texts_of(alloc, row_of(values, first + cycle))?;
        texts = texts.with(&row)?;
    }
    Ok(texts)
}

/// For each trace the texts of its rows.
#[tactic(auto, using(crate::proofs::SetRows::trace_steps))]
fn traces_texts(
    alloc: Global,
    values: &Values,
    traces: &[Trace],
) -> Result<Items<CycleTexts>, NoMemory>
    requires { HasRows traces.now values.now }
    ensures { IfOk result (λ texts. texts ≡ traces_texts values.now 0 traces.now) }
{
    let mut first = 0;
    let mut texts = Items::new(alloc);
    for trace in traces {
        texts.push(rows_texts(alloc, values, first, trace.cycles)?)?;
        first += trace.cycles as usize;
    }
    Ok(texts)
}

/// What the report says of a set.
fn set_of(alloc: Global, set: &SetWithValues, traces: &[Trace]) -> Result<ReportSet, NoMemory>
    requires { HasRows traces.now set.now.values }
    ensures { IfOk result (λ made. made ≡ set_of traces.now set.now) }
{
    Ok(ReportSet {
        members: Items::copy_of(alloc, set.members.as_slice())?,
        values: traces_texts(alloc, &set.values, traces)?,
    })
}

/// What the report says of sets.
fn sets_of(
    alloc: Global,
    sets: &[SetWithValues],
    traces: &[Trace],
) -> Result<Items<ReportSet>, NoMemory>
    requires { All (λ set. HasRows traces.now set.values) sets.now }
    ensures { IfOk result (λ made. made ≡ map (set_of traces.now) sets.now) }
{
    let mut made = Items::new(alloc);
    for set in sets {
        made.push(set_of(alloc, set, traces)?)?;
    }
    Ok(made)
}

/// What the report says of a suspect.
fn suspect_of(alloc: Global, group: &Group, places: &[Place]) -> Result<ReportSuspect, NoMemory>
    requires { All (λ place. place < length places.now) group.now.places }
    ensures { IfOk result (λ made. made ≡ suspect_of places.now group.now) }
{
    Ok(ReportSuspect {
        kind: group.kind.copied(alloc)?,
        label: group.label.copied(alloc)?,
        line: line_of(places, group.places.as_slice()),
    })
}

/// What the report says of the suspects.
fn suspects_of(
    alloc: Global,
    groups: &[Group],
    places: &[Place],
) -> Result<Items<ReportSuspect>, NoMemory>
    requires { AreWithin places.now groups.now }
    ensures { IfOk result (λ made. made ≡ map (suspect_of places.now) groups.now) }
{
    let mut made = Items::new(alloc);
    for group in groups {
        made.push(suspect_of(alloc, group, places)?)?;
    }
    Ok(made)
}

/// A copy of names.
fn names_of(alloc: Global, names: &[Name]) -> Result<Items<Name>, NoMemory>
    ensures { IfOk result (λ copies. copies ≡ names.now) }
{
    let mut copies = Items::new(alloc);
    for name in names {
        copies.push(name.copied(alloc)?)?;
    }
    Ok(copies)
}

/// A copy of the name, where there is one.
fn clock_of(alloc: Global, clock: Option<&Name>) -> Result<Option<Name>, NoMemory>
    ensures { IfOk result (λ copy. copy ≡ option_copied clock.entry) }
{
    match clock {
        Some(name) => Ok(Some(name.copied(alloc)?)),
        None => Ok(None),
    }
}

/// The report of what a run found. It can be written.
pub fn report_of(alloc: Global, found: &Findings) -> Result<Report, NoMemory>
    requires kinds { AreKinds found.now.kinds.now }
    requires size { found.now.size ≤ 8 }
    requires rows { All (λ set. HasRows found.now.traces.now set.values) found.now.sets.now }
    requires within { AreWithin found.now.places.now found.now.groups.now }
    ensures report { IfOk result (λ report. report ≡ report_of found.now) }
    ensures can_be_written { IfOk result CanBeWritten }
{
    Ok(Report {
        clock: clock_of(alloc, found.clock)?,
        ending: found.ending,
        inputs: found.inputs,
        kinds: names_of(alloc, found.kinds)?,
        sets: sets_of(alloc, found.sets, found.traces)?,
        size: found.size,
        suspects: suspects_of(alloc, found.groups.as_slice(), found.places)?,
        top: found.top.copied(alloc)?,
    })
}
