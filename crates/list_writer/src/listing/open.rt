//! The beginning of a listing: what is written before its search.
ghost use Rattle.std.specs.Prelude.{◌≡◌, All, IsSome, List, OnOk, Option, true, ℕ};
ghost use Rattle.command_contract.specs.Contract.{counts_of};
ghost use Rattle.proof_check.specs.Text.{IsDigest};
ghost use Rattle.report_doc.specs.Lines.{AreWithin};
ghost use Rattle.write_order.specs.Writes.{WriteCause, on_sink};
ghost use Rattle.list_writer.specs.Due.{first_writes};
ghost use Rattle.list_writer.specs.Going.{AreMembers, LinesLeave, OpenLeaves, StopCauses, SinkCause, lines_writes, outputs};
ghost use Rattle.list_writer.specs.Jobs.{asked_of, asked_with, session_of};

use super::Listing;
use crate::pair::{Pair, names_of};
use crate::search::Search;
use crate::stop::{Stop, stopped};
use crate::writes::{ask, begin_log, print_set, put_head};
use io_ports::{Shelf, Sink};
use loc_base::NoMemory;
use refusal::Notes;
use set_waves::wave_name;
use write_order::WriteErr;

impl<'a, D: Search + Drop> Listing<'a, D> {
    /// Prints the lines of the sets that are there.
    fn print_sets<O: Sink, N: Notes>(&self, out: &mut O, notes: &mut N) -> Result<(), Stop>
        requires members { AreMembers (asked_of self.now.job).problem.groups self.now.found.items }
        requires within { AreWithin (asked_of self.now.job).problem.design.places.items (asked_of self.now.job).problem.groups }
        ensures tells { O.tells out.new ≡ O.tells out.old }
        ensures left { O.tells out.old ≡ true → (written : List ℕ → Option (List ℕ))
            → LinesLeave (lines_writes (asked_of self.now.job) self.now.found.items)
            (on_sink written (O.written out.old) (O.written out.new)) result }
        ensures cause { SinkCause (O.faults out.old) (O.faults out.new) result }
    {
        for count in 0..self.found.len() {
            let printed = print_set(self.alloc, &self.job, &self.found[count], out, notes);
            stopped(printed, Some(count))?;
        }
        Ok(())
    }

    /// Begins the log with its head and the steps that the search has, and prints the lines of the sets that are there: those of the session
    /// that the listing goes on from.
    fn begin<S: Shelf, O: Sink, N: Notes>(
        &self,
        shelf: &mut S,
        out: &mut O,
        notes: &mut N,
    ) -> Result<(), Stop>
        requires members { AreMembers (asked_of self.now.job).problem.groups self.now.found.items }
        requires within { AreWithin (asked_of self.now.job).problem.design.places.items (asked_of self.now.job).problem.groups }
        ensures tells_shelf { S.tells shelf.new ≡ S.tells shelf.old }
        ensures tells_sink { O.tells out.new ≡ O.tells out.old }
        ensures texts { S.texts shelf.new ≡ S.texts shelf.old }
        ensures begun { S.tells shelf.old ≡ true → OnOk result (IsSome (S.written shelf.new self.now.job.log.now)) }
        ensures digest { OnOk result (IsDigest self.now.job.inputs) }
        ensures left { S.tells shelf.old ≡ true → O.tells out.old ≡ true
            → OpenLeaves (first_writes (asked_with self.now.job (session_of self.now.found.items (D.state self.now.search))))
            (outputs (S.written shelf.old) (S.written shelf.new) (O.written out.old) (O.written out.new)) result }
        ensures causes { StopCauses (counts_of (S.faults shelf.old) (S.faults shelf.new) (O.faults out.old) (O.faults out.new)) result }
    {
        stopped(begin_log(&self.job, shelf, notes), None)?;
        stopped(
            put_head(self.alloc, &self.job, self.search.log(), shelf, notes),
            Some(0),
        )?;
        self.print_sets(out, notes)
    }

    /// Asks whether the wave of the first set and the first trace can be begun.
    fn ask_wave<S: Shelf, N: Notes>(
        &self,
        prefix: &str,
        shelf: &mut S,
        notes: &mut N,
    ) -> Result<(), WriteErr>
        ensures tells { S.tells shelf.new ≡ S.tells shelf.old }
        ensures texts { S.texts shelf.new ≡ S.texts shelf.old }
        ensures written { S.written shelf.new ≡ S.written shelf.old }
        ensures cause { WriteCause (S.faults shelf.old) (S.faults shelf.new) result }
    {
        match wave_name(self.alloc, prefix, 1, 1) {
            Ok(name) => ask(shelf, name.as_str(), notes),
            Err(NoMemory) => Err(WriteErr::NoMemory),
        }
    }

    /// Asks whether the log and the report of the first checkpoint can be begun.
    fn ask_pair<S: Shelf, N: Notes>(
        &self,
        prefix: &str,
        shelf: &mut S,
        notes: &mut N,
    ) -> Result<(), WriteErr>
        ensures tells { S.tells shelf.new ≡ S.tells shelf.old }
        ensures texts { S.texts shelf.new ≡ S.texts shelf.old }
        ensures written { S.written shelf.new ≡ S.written shelf.old }
        ensures cause { WriteCause (S.faults shelf.old) (S.faults shelf.new) result }
    {
        match names_of(self.alloc, prefix, Pair::First) {
            Ok(names) => {
                ask(shelf, names.log.as_str(), notes)?;
                ask(shelf, names.report.as_str(), notes)
            }
            Err(NoMemory) => Err(WriteErr::NoMemory),
        }
    }

    /// Asks of each name that is to be written whether it can be begun: the log's, the report's, those of the first checkpoint where they are
    /// asked for, and with waves that of the first one.
    fn ask_names<S: Shelf, N: Notes>(&self, shelf: &mut S, notes: &mut N) -> Result<(), WriteErr>
        ensures tells { S.tells shelf.new ≡ S.tells shelf.old }
        ensures texts { S.texts shelf.new ≡ S.texts shelf.old }
        ensures written { S.written shelf.new ≡ S.written shelf.old }
        ensures cause { WriteCause (S.faults shelf.old) (S.faults shelf.new) result }
    {
        ask(shelf, self.job.log, notes)?;
        ask(shelf, self.job.report, notes)?;
        if let Some(prefix) = self.job.checkpoints {
            self.ask_pair(prefix, shelf, notes)?;
        }
        match self.job.waves {
            None => Ok(()),
            Some(prefix) => self.ask_wave(prefix, shelf, notes),
        }
    }

    /// Writes what stands before the search, once it is known that all names can be begun. Where one can't, nothing is written.
    pub(super) fn open<S: Shelf, O: Sink, N: Notes>(
        &self,
        shelf: &mut S,
        out: &mut O,
        notes: &mut N,
    ) -> Result<(), Stop>
        requires members { AreMembers (asked_of self.now.job).problem.groups self.now.found.items }
        requires within { AreWithin (asked_of self.now.job).problem.design.places.items (asked_of self.now.job).problem.groups }
        ensures tells_shelf { S.tells shelf.new ≡ S.tells shelf.old }
        ensures tells_sink { O.tells out.new ≡ O.tells out.old }
        ensures texts { S.texts shelf.new ≡ S.texts shelf.old }
        ensures begun { S.tells shelf.old ≡ true → OnOk result (IsSome (S.written shelf.new self.now.job.log.now)) }
        ensures digest { OnOk result (IsDigest self.now.job.inputs) }
        ensures left { S.tells shelf.old ≡ true → O.tells out.old ≡ true
            → OpenLeaves (first_writes (asked_with self.now.job (session_of self.now.found.items (D.state self.now.search))))
            (outputs (S.written shelf.old) (S.written shelf.new) (O.written out.old) (O.written out.new)) result }
        ensures causes { StopCauses (counts_of (S.faults shelf.old) (S.faults shelf.new) (O.faults out.old) (O.faults out.new)) result }
    {
        stopped(self.ask_names(shelf, notes), None)?;
        self.begin(shelf, out, notes)
    }
}
