//! The pieces of a dump behind its header, taken in one by one up to the text's end (IEEE 1364-2005, 18.2).
ghost use Rattle.std.specs.Prelude.{◌≡◌, ◌≤◌, ◌<◌, ℕ, List, true, Ok, IsTrue, IfOk, length, drop};
ghost use Rattle.std.specs.List.{list_all};
ghost use Rattle.vcd_words.specs.Words.{words_left, placed};
ghost use Rattle.vcd_traces.specs.Moment.{has_width};
ghost use Rattle.vcd_reading.specs.Scopes.{Sought};
ghost use Rattle.vcd_traces.specs.Samples.{Watches};
ghost use Rattle.vcd_reading.specs.Changes.{Past, timed, scalar, vector, other_value};
ghost use Rattle.vcd_reading.specs.Pieces.{behind_code, behind_end};
ghost use Rattle.vcd_reading.specs.Reading.{step, step_done, step_behind};
ghost use Rattle.vcd_traces.specs.Plan.{IsPlan};
ghost use Rattle.vcd_traces.specs.Going.{Goes, Holding, Going, Ends};

use crate::changes::Change;
use crate::reader::{Plan, Reading};
use vcd_reading::{Kind, VcdErr, bytes_at, change_at, section_end};
use vcd_words::{Extent, Level, word_at};

/// The bytes of a word behind its first.
fn behind_first(word: &[u8]) -> &[u8]
    ensures { result.now ≡ drop 1 word.now }
{
    match word.split_first() {
        None => word,
        Some((_, rest)) => rest,
    }
}

/// The offset behind a comment, of which the words stand from an offset on.
fn comment_end(text: &[u8], from: usize) -> Result<usize, VcdErr>
    ensures goes { (past : Past) → Goes text.now (step_behind (length text.now) (behind_end (words_left text.now from)) (Ok past)) (λ next. next ≡ past) result }
    ensures later { IfOk result (λ next. from < next) }
    ensures within { IfOk result (λ next. next ≤ length text.now) }
{
    match section_end(text, from) {
        None => Err(VcdErr::Syntax { offset: text.len() }),
        Some(next) => Ok(next),
    }
}

impl Reading {
    /// Takes in a time.
    fn take_stamp(&mut self, plan: &Plan<'_>, word: Extent, time: u64) -> Result<usize, VcdErr>
        requires inputs { IsTrue (list_all has_width plan.now.watched.inputs.items) }
        requires outputs { IsTrue (list_all has_width plan.now.watched.outputs.items) }
        ensures goes { (text : List ℕ) (sought : Sought) (w : Watches) (past : Past) → IsPlan past.header sought w plan.now → Holding w plan.now past self.old past
            → Goes text (step_done (timed past time word.start) (words_left text word.stop)) (Holding w plan.now past self.new) result }
        ensures stop { IfOk result (λ next. next ≡ word.stop) }
    {
        self.take_time(&plan.watched, time, word.start)?;
        Ok(word.stop)
    }

    /// Takes in a scalar change, whose code stands behind its digit in the same word.
    fn take_scalar(
        &mut self,
        plan: &Plan<'_>,
        text: &[u8],
        word: Extent,
        level: Level,
    ) -> Result<usize, VcdErr>
        requires some { word.start < word.stop }
        requires inside { word.stop ≤ length text.now }
        ensures goes { (sought : Sought) (w : Watches) (past : Past) → IsPlan past.header sought w plan.now → Holding w plan.now past self.old past
            → Goes text.now (step_done (scalar sought past level (placed text.now word.start word.stop)) (words_left text.now word.stop)) (Holding w plan.now past self.new) result }
        ensures stop { IfOk result (λ next. next ≡ word.stop) }
    {
        let change = Change {
            value_at: word.start,
            code_at: word.start,
            code: behind_first(bytes_at(text, word)),
        };
        self.take_change(&plan.table, &change, level, 1)?;
        Ok(word.stop)
    }

    /// Takes in a vector change, whose code is the next word.
    fn take_vector(
        &mut self,
        plan: &Plan<'_>,
        text: &[u8],
        word: Extent,
        level: Level,
    ) -> Result<usize, VcdErr>
        requires some { word.start < word.stop }
        requires inside { word.stop ≤ length text.now }
        ensures goes { (sought : Sought) (w : Watches) (past : Past) → IsPlan past.header sought w plan.now → Holding w plan.now past self.old past
            → let words = words_left text.now word.stop in
            Goes text.now (step_behind (length text.now) (behind_code words) (vector sought past level (placed text.now word.start word.stop) words)) (Holding w plan.now past self.new) result }
        ensures later { IfOk result (λ next. word.stop < next) }
        ensures within { IfOk result (λ next. next ≤ length text.now) }
    {
        let Some(code) = word_at(text, word.stop) else {
            return Err(VcdErr::Syntax { offset: text.len() });
        };
        let change = Change {
            value_at: word.start,
            code_at: code.start,
            code: bytes_at(text, code),
        };
        let digits = word.stop - word.start - 1;
        self.take_change(&plan.table, &change, level, digits)?;
        Ok(code.stop)
    }

    /// Takes in a value that is no bits, whose code is the next word.
    fn take_other(&mut self, plan: &Plan<'_>, text: &[u8], word: Extent) -> Result<usize, VcdErr>
        requires some { word.start < word.stop }
        requires inside { word.stop ≤ length text.now }
        ensures goes { (sought : Sought) (w : Watches) (past : Past) → IsPlan past.header sought w plan.now → Holding w plan.now past self.old past
            → let words = words_left text.now word.stop in
            Goes text.now (step_behind (length text.now) (behind_code words) (other_value sought past (placed text.now word.start word.stop) words)) (Holding w plan.now past self.new) result }
        ensures later { IfOk result (λ next. word.stop < next) }
        ensures within { IfOk result (λ next. next ≤ length text.now) }
    {
        let Some(code) = word_at(text, word.stop) else {
            return Err(VcdErr::Syntax { offset: text.len() });
        };
        let change = Change {
            value_at: word.start,
            code_at: code.start,
            code: bytes_at(text, code),
        };
        self.take_pass(&plan.table, &change)?;
        Ok(code.stop)
    }

    /// Takes in the piece that a word begins, and answers the offset behind it.
    fn take_piece(&mut self, plan: &Plan<'_>, text: &[u8], word: Extent) -> Result<usize, VcdErr>
        requires inputs { IsTrue (list_all has_width plan.now.watched.inputs.items) }
        requires outputs { IsTrue (list_all has_width plan.now.watched.outputs.items) }
        requires some { word.start < word.stop }
        requires inside { word.stop ≤ length text.now }
        ensures goes { (sought : Sought) (w : Watches) (past : Past) → IsPlan past.header sought w plan.now → past.header.ended ≡ true → Holding w plan.now past self.old past
            → Goes text.now (step sought (length text.now) past (placed text.now word.start word.stop) (words_left text.now word.stop)) (Holding w plan.now past self.new) result }
        ensures later { IfOk result (λ next. word.stop ≤ next) }
        ensures within { IfOk result (λ next. next ≤ length text.now) }
    {
        match change_at(bytes_at(text, word)) {
            None => Err(VcdErr::Syntax { offset: word.start }),
            Some(Kind::Time(time)) => self.take_stamp(plan, word, time),
            Some(Kind::Scalar(level)) => self.take_scalar(plan, text, word, level),
            Some(Kind::Vector(level)) => self.take_vector(plan, text, word, level),
            Some(Kind::Real) => self.take_other(plan, text, word),
            Some(Kind::Text) => self.take_other(plan, text, word),
            Some(Kind::Mark) => Ok(word.stop),
            Some(Kind::Section(_)) => comment_end(text, word.stop),
        }
    }

    /// Reads the changes from an offset on, up to the text's end.
    pub fn read(&mut self, plan: &Plan<'_>, text: &[u8], from: usize) -> Result<(), VcdErr>
        requires inputs { IsTrue (list_all has_width plan.now.watched.inputs.items) }
        requires outputs { IsTrue (list_all has_width plan.now.watched.outputs.items) }
        ensures { (sought : Sought) (w : Watches) (start : Past) → IsPlan start.header sought w plan.now → Going sought w plan.now text.now start from self.old
            → Ends sought w text.now start result self.new }
    {
        let mut at = from;
        while let Some(word) = word_at(text, at) {
            at = self.take_piece(plan, text, word)?;
        }
        self.close(&plan.watched)?;
        Ok(())
    }
}
