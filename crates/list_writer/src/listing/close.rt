//! The end of a listing: what is written behind its search.
ghost use Rattle.std.specs.Prelude.{◌≡◌, IsSome, List, OnOk, drop, true, ℕ};
ghost use Rattle.command_contract.specs.Contract.{counts_of};
ghost use Rattle.report_doc.specs.Shape.{IsReport};
ghost use Rattle.write_order.specs.Writes.{Leaves, WriteCause, on_shelf};
ghost use Rattle.list_writer.specs.Checks.{IsVerdictOn};
ghost use Rattle.list_writer.specs.Going.{WriteCauses, closing_writes, outputs, report_writes};
ghost use Rattle.list_writer.specs.Jobs.{asked_of};
ghost use Rattle.list_writer.specs.Reporting.{CanBeReported};
ghost use Rattle.list_writer.specs.Texts.{report_for, waved_for, waves};
ghost use Rattle.set_waves.specs.Waved.{AreRuns, CanBeWaved, HaveValues, Runs};

use super::Listing;
use crate::report::text_of_report;
use crate::search::Search;
use crate::verdict::Verdict;
use crate::waving::waves_under;
use crate::writes::{Written, print_ending, put_steps};
use io_ports::{Shelf, Sink};
use loc_base::NoMemory;
use refusal::{Note, Notes};
use report_doc::types::Ending;
use set_waves::put_waves;
use write_order::{WriteErr, begin_text, put_piece};

impl<'a, D: Search + Drop> Listing<'a, D> {
    /// Writes the report.
    fn put_report<S: Shelf, N: Notes>(
        &self,
        ending: Ending,
        shelf: &mut S,
        notes: &mut N,
    ) -> Result<(), WriteErr>
        requires { CanBeReported (asked_of self.now.job) self.now.found.items }
        ensures tells { S.tells shelf.new ≡ S.tells shelf.old }
        ensures texts { S.texts shelf.new ≡ S.texts shelf.old }
        ensures left { S.tells shelf.old ≡ true → (printed : List ℕ)
            → Leaves (report_writes (asked_of self.now.job) self.now.found.items ending)
            (on_shelf (S.written shelf.old) (S.written shelf.new) printed) result }
        ensures report { OnOk result (IsReport (report_for (asked_of self.now.job) self.now.found.items ending)) }
        ensures cause { WriteCause (S.faults shelf.old) (S.faults shelf.new) result }
    {
        // The text first, so that the report isn't begun where there is no memory for it.
        match text_of_report(self.alloc, &self.job, &self.found, ending) {
            Ok(text) => {
                begin_text(shelf, self.job.report, notes)?;
                put_piece(shelf, self.job.report, text.as_slice(), notes)
            }
            Err(NoMemory) => Err(WriteErr::NoMemory),
        }
    }

    /// Writes the waves, where they are asked for.
    fn put_waves<S: Shelf, N: Notes>(&self, shelf: &mut S, notes: &mut N) -> Result<(), WriteErr>
        requires waved { CanBeWaved (waved_for (asked_of self.now.job)) (asked_of self.now.job).problem.order }
        requires values { HaveValues (waved_for (asked_of self.now.job)) self.now.found.items }
        ensures tells { S.tells shelf.new ≡ S.tells shelf.old }
        ensures texts { S.texts shelf.new ≡ S.texts shelf.old }
        ensures left { S.tells shelf.old ≡ true → (runs : Runs) (printed : List ℕ)
            → AreRuns (waved_for (asked_of self.now.job)) self.now.found.items runs
            → Leaves (waves (asked_of self.now.job) self.now.found.items runs)
            (on_shelf (S.written shelf.old) (S.written shelf.new) printed) result }
        ensures cause { WriteCause (S.faults shelf.old) (S.faults shelf.new) result }
    {
        match self.job.waves {
            None => Ok(()),
            Some(prefix) => put_waves(
                self.alloc,
                &waves_under(&self.job, prefix),
                &self.found,
                shelf,
                notes,
            ),
        }
    }

    /// Writes what stands behind the search: the rest of the log, the report, the waves, and the last line.
    pub(super) fn close<S: Shelf, O: Sink, N: Notes>(
        &self,
        verdict: &Verdict,
        shelf: &mut S,
        out: &mut O,
        notes: &mut N,
    ) -> Result<(), WriteErr>
        requires begun { S.tells shelf.old ≡ true → IsSome (S.written shelf.old self.now.job.log.now) }
        requires shown { IsVerdictOn (D.state self.now.search) verdict.now }
        requires report { CanBeReported (asked_of self.now.job) self.now.found.items }
        requires waved { CanBeWaved (waved_for (asked_of self.now.job)) (asked_of self.now.job).problem.order }
        requires values { HaveValues (waved_for (asked_of self.now.job)) self.now.found.items }
        ensures tells_shelf { S.tells shelf.new ≡ S.tells shelf.old }
        ensures tells_sink { O.tells out.new ≡ O.tells out.old }
        ensures texts { S.texts shelf.new ≡ S.texts shelf.old }
        ensures left { S.tells shelf.old ≡ true → O.tells out.old ≡ true
            → (runs : Runs) → AreRuns (waved_for (asked_of self.now.job)) self.now.found.items runs
            → Leaves (closing_writes (asked_of self.now.job) self.now.found.items
            (drop self.now.steps (D.state self.now.search).log) verdict.now.ending runs)
            (outputs (S.written shelf.old) (S.written shelf.new) (O.written out.old) (O.written out.new)) result }
        ensures report { OnOk result (IsReport (report_for (asked_of self.now.job) self.now.found.items verdict.now.ending)) }
        ensures causes { WriteCauses (counts_of (S.faults shelf.old) (S.faults shelf.new) (O.faults out.old) (O.faults out.new)) result }
    {
        let rest = Written {
            log: self.search.log(),
            before: self.steps,
        };
        put_steps(self.alloc, &self.job, &rest, shelf, notes)?;
        notes.note(&Note::Written { name: self.job.log });
        self.put_report(verdict.ending, shelf, notes)?;
        notes.note(&Note::Written {
            name: self.job.report,
        });
        self.put_waves(shelf, notes)?;
        print_ending(self.alloc, verdict.ending, self.found.len(), out, notes)
    }
}
