//! Rows of texts, and the words that they are of.

ghost use Rattle.std.specs.Prelude.{◌≡◌, ◌<◌, ◌↔◌, [], All, IfOk, IsTrue, MatchBool, length, slice_index_or};
ghost use Rattle.report_sets.specs.Reading.{AllHaveWords, AppendsRow, AppendsRows, AreWidths, HasItsRows, HasWords, all_rows};

use crate::hex::word_of;
use design_core::Trace;
use loc_base::{Bits, NoMemory};
use report_doc::CycleTexts;

/// Whether there are texts of so many cycles for each trace as it has.
pub(crate) fn has_its_rows(traces: &[Trace], values: &[CycleTexts]) -> bool
    ensures { IsTrue result ↔ HasItsRows traces.now values.now }
{
    match traces.split_first() {
        Some((trace, traces)) => match values.split_first() {
            Some((rows, values)) => {
                rows.len() == trace.cycles as usize && has_its_rows(traces, values)
            }
            None => false,
        },
        None => values.is_empty(),
    }
}

/// Appends the words of the texts of a cycle, a word for each width. False where they aren't the texts of words of these widths.
#[tactic(auto, using(crate::proofs::Pushing::row_rules))]
fn push_row(
    words: &mut Vec<Bits>,
    widths: &[u8],
    texts: &CycleTexts,
    cycle: usize,
) -> Result<bool, NoMemory>
    requires cycle { cycle < length texts.now }
    requires widths { AreWidths widths.now }
    ensures { IfOk result (λ read. MatchBool read (AppendsRow widths.now (slice_index_or texts.now cycle []) words.old.items words.new.items)
        (¬ HasWords widths.now (slice_index_or texts.now cycle []))) }
{
    if texts.count(cycle) != widths.len() {
        return Ok(false);
    }
    for place in 0..widths.len() {
        match word_of(widths[place], texts.text(cycle, place)) {
            Some(word) => words.push(word)?,
            None => return Ok(false),
        }
    }
    Ok(true)
}

/// Appends the words of the texts of all cycles of a trace. False where those of a cycle aren't the texts of words of these widths.
#[tactic(auto, using(crate::proofs::Pushing::rows_rules))]
fn push_rows(words: &mut Vec<Bits>, widths: &[u8], texts: &CycleTexts) -> Result<bool, NoMemory>
    requires { AreWidths widths.now }
    ensures { IfOk result (λ read. MatchBool read (AppendsRows widths.now texts.now words.old.items words.new.items)
        (¬ All (HasWords widths.now) texts.now)) }
{
    for cycle in 0..texts.len() {
        if !push_row(words, widths, texts, cycle)? {
            return Ok(false);
        }
    }
    Ok(true)
}

/// Appends the words of the texts of all traces. False where those of a cycle aren't the texts of words of these widths.
#[tactic(auto, using(crate::proofs::Pushing::all_rules))]
pub(crate) fn push_all(
    words: &mut Vec<Bits>,
    widths: &[u8],
    values: &[CycleTexts],
) -> Result<bool, NoMemory>
    requires { AreWidths widths.now }
    ensures { IfOk result (λ read. MatchBool read (AppendsRows widths.now (all_rows values.now) words.old.items words.new.items)
        (¬ AllHaveWords widths.now values.now)) }
{
    for texts in values {
        if !push_rows(words, widths, texts)? {
            return Ok(false);
        }
    }
    Ok(true)
}
