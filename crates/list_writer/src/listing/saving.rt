//! The checkpoints of a listing: the log and the report that it would end with if its budget were spent now.
ghost use Rattle.std.specs.Prelude.{◌≡◌, ◌<◌, ◌++◌, IfOk, List, OnErr, OnOk, Some, length, string_bytes, true, ℕ};
ghost use Rattle.report_doc.specs.declared.types.Ending.TheVariants.{Budget};
ghost use Rattle.set_waves.specs.Writes.{text_writes};
ghost use Rattle.write_order.specs.Writes.{Leaves, WriteCause, on_shelf};
ghost use Rattle.list_writer.specs.Going.{ShelfCauses};
ghost use Rattle.list_writer.specs.Jobs.{asked_of};
ghost use Rattle.list_writer.specs.Reporting.{CanBeReported};
ghost use Rattle.list_writer.specs.Saving.{IsSavable, SaveLeaves, WriteLeaves, now_log, saving_of};
ghost use Rattle.list_writer.specs.Texts.{report_of};

use super::Listing;
use crate::pair::{PairNames, names_of};
use crate::report::text_of_report;
use crate::saves::{Saves, Size};
use crate::search::Search;
use crate::stop::{Stop, stopped};
use crate::writes::head_with;
use io_ports::Shelf;
use loc_base::{Bytes, NoMemory};
use log_portions::portion;
use printed_text::push_bytes;
use refusal::Notes;
use report_doc::types::Ending;
use write_order::{WriteErr, begin_text, put_piece};

/// The two texts of a checkpoint, and how many steps its log has.
#[derive(Drop)]
struct Texts {
    log: Vec<u8>,
    report: Bytes,
    steps: usize,
}

/// Begins a text and puts all of it.
fn put_text<S: Shelf, N: Notes>(
    shelf: &mut S,
    name: &str,
    text: &[u8],
    notes: &mut N,
) -> Result<(), WriteErr>
    ensures tells { S.tells shelf.new ≡ S.tells shelf.old }
    ensures texts { S.texts shelf.new ≡ S.texts shelf.old }
    ensures left { S.tells shelf.old ≡ true → (printed : List ℕ)
        → Leaves (text_writes name.now text.now) (on_shelf (S.written shelf.old) (S.written shelf.new) printed) result }
    ensures cause { WriteCause (S.faults shelf.old) (S.faults shelf.new) result }
{
    begin_text(shelf, name, notes)?;
    put_piece(shelf, name, text, notes)
}

impl Texts {
    /// Writes both under their names, the log first.
    fn put<S: Shelf, N: Notes>(
        &self,
        names: &PairNames,
        shelf: &mut S,
        notes: &mut N,
    ) -> Result<(), WriteErr>
        ensures tells { S.tells shelf.new ≡ S.tells shelf.old }
        ensures texts { S.texts shelf.new ≡ S.texts shelf.old }
        ensures left { S.tells shelf.old ≡ true → (printed : List ℕ)
            → Leaves (text_writes (string_bytes names.now.log) self.now.log.items
            ++ text_writes (string_bytes names.now.report) self.now.report)
            (on_shelf (S.written shelf.old) (S.written shelf.new) printed) result }
        ensures cause { WriteCause (S.faults shelf.old) (S.faults shelf.new) result }
    {
        put_text(shelf, names.log.as_str(), &self.log, notes)?;
        put_text(shelf, names.report.as_str(), self.report.as_slice(), notes)
    }
}

#[tactic(auto, using(crate::proofs::Saved::save_rules))]
impl<'a, D: Search + Drop> Listing<'a, D> {
    /// The texts of a checkpoint of now.
    fn texts_now(&self) -> Result<Texts, NoMemory>
        requires some { 0 < length self.now.found.items }
        requires report { CanBeReported (asked_of self.now.job) self.now.found.items }
        ensures log { IfOk result (λ texts. texts.log.items ≡ now_log (asked_of self.now.job) (D.state self.now.search)) }
        ensures report { IfOk result (λ texts. texts.report ≡ report_of (asked_of self.now.job) self.now.found.items Budget) }
        ensures savable { OnOk result (IsSavable (asked_of self.now.job) (D.state self.now.search) self.now.found.items) }
    {
        let certificate = self.search.certificate()?;
        let more = certificate.len();
        let mut log = head_with(self.alloc, &self.job.inputs, self.search.log())?;
        push_bytes(&mut log, &portion(self.alloc, &certificate, 0)?)?;
        let report = text_of_report(self.alloc, &self.job, &self.found, Ending::Budget)?;
        let steps = self.search.log().len().saturating_add(more);
        Ok(Texts { log, report, steps })
    }

    /// Writes a checkpoint under the names of the next pair.
    fn put_checkpoint<S: Shelf, N: Notes>(
        &self,
        prefix: &str,
        saves: &mut Saves,
        shelf: &mut S,
        notes: &mut N,
    ) -> Result<(), WriteErr>
        requires some { 0 < length self.now.found.items }
        requires report { CanBeReported (asked_of self.now.job) self.now.found.items }
        requires asks { (asked_of self.now.job).checkpoints ≡ Some prefix.now }
        ensures tells { S.tells shelf.new ≡ S.tells shelf.old }
        ensures texts { S.texts shelf.new ≡ S.texts shelf.old }
        ensures left { S.tells shelf.old ≡ true
            → WriteLeaves (saving_of (asked_of self.now.job) (D.state self.now.search) self.now.found.items saves.old.next saves.new.next
            (S.written shelf.old) (S.written shelf.new)) result }
        ensures cause { WriteCause (S.faults shelf.old) (S.faults shelf.new) result }
    {
        let Ok(texts) = self.texts_now() else {
            return Err(WriteErr::NoMemory);
        };
        let Ok(names) = names_of(self.alloc, prefix, saves.next) else {
            return Err(WriteErr::NoMemory);
        };
        texts.put(&names, shelf, notes)?;
        *saves = saves.behind(Size {
            steps: self.search.log().len(),
            whole: texts.steps,
        });
        Ok(())
    }

    /// Writes a checkpoint, where they are asked for, some set is listed, and the next one is due.
    pub(super) fn save<S: Shelf, N: Notes>(
        &self,
        saves: &mut Saves,
        shelf: &mut S,
        notes: &mut N,
    ) -> Result<(), Stop>
        requires report { CanBeReported (asked_of self.now.job) self.now.found.items }
        ensures tells { S.tells shelf.new ≡ S.tells shelf.old }
        ensures texts { S.texts shelf.new ≡ S.texts shelf.old }
        ensures left { S.tells shelf.old ≡ true
            → SaveLeaves (saving_of (asked_of self.now.job) (D.state self.now.search) self.now.found.items saves.old.next saves.new.next
            (S.written shelf.old) (S.written shelf.new)) result }
        ensures cause { ShelfCauses (S.faults shelf.old) (S.faults shelf.new) result }
    {
        let Some(prefix) = self.job.checkpoints else {
            return Ok(());
        };
        let sets = self.found.len();
        if sets == 0 || !saves.is_due(self.search.log().len()) {
            return Ok(());
        }
        stopped(self.put_checkpoint(prefix, saves, shelf, notes), Some(sets))
    }
}
