//! The listing: sets are searched for, and each is written as it is found.
ghost use Rattle.std.specs.Prelude.{◌≡◌, ◌≢◌, ◌+◌, ◌<◌, ◌≤◌, ◌∷◌, [], ◌++◌, ◌&&◌, ◌↔◌, All, Bool, IfOk, IsSome, IsTrue, List, OnOk, Option, drop, false, length, true, ℕ};
ghost use Rattle.command_contract.specs.Contract.{Counts, NoneRose, counts_of};
ghost use Rattle.debug_core.specs.Debugging.{HasRoom, IsDebugger};
ghost use Rattle.report_doc.specs.Lines.{AreWithin, IsMemberOf};
ghost use Rattle.write_order.specs.Writes.{Leaves, Outputs, on_sink};
ghost use Rattle.list_writer.specs.Due.{set_writes};
ghost use Rattle.list_writer.specs.Going.{IsTurn, IsSearched, MemoryCause, RunLeaves, SearchEnds, ShowsFront, StopCauses, TellsMemory};
ghost use Rattle.list_writer.specs.Lines.{ending_status};
ghost use Rattle.list_writer.specs.Going.{WriteCauses, outputs, searched_of, turn_of};
ghost use Rattle.list_writer.specs.Asked.{Session};
ghost use Rattle.list_writer.specs.CheckpointNames.{beside, is_checkpoint};
ghost use Rattle.list_writer.specs.Checkpoints.{CheckpointsStand};
ghost use Rattle.list_writer.specs.Saving.{RunSaves};
ghost use Rattle.list_writer.specs.Jobs.{GoesWith, IsJob, IsUpTo, asked_of, asked_with, session_of};
ghost use Rattle.list_writer.specs.Outcomes.{Leaves as Ends, OutcomeCause};
ghost use Rattle.list_writer.specs.Checks.{CanBeChecked, IsVerdictOn};
ghost use Rattle.set_waves.specs.Names.{IsWave};

mod close;
mod open;
mod saving;

use crate::checking::check_log;
use crate::job::{Job, Task};
use crate::outcome::Outcome;
use crate::progress::Sizes;
use crate::saves::Saves;
use crate::search::Search;
use crate::slice::next_in_slice;
use crate::stop::{Stop, stopped};
use crate::verdict::Verdict;
use crate::writes::{Written, print_memory, print_set, put_steps};
use debug_core::Found;
use design_core::SetWithValues;
use io_ports::{Shelf, Sink};
use loc_base::{Gate, NoMemory, Workers};
use refusal::{Note, Notes};
use report_doc::types::Ending;
use std::alloc::Global;
use std::thread::Threads;
use write_order::WriteErr;

/// A listing that goes on: what is found so far, how many steps of the log are written, and the units that are left of the budget.
#[derive(Drop)]
struct Listing<'a, D> {
    alloc: Global,
    job: Job<'a>,
    search: D,
    found: Vec<SetWithValues>,
    steps: usize,
    left: u32,
}

impl<'a, D: Search + Drop> Listing<'a, D> {
    /// Writes a set that was found, and keeps it.
    fn take<S: Shelf, O: Sink, N: Notes>(
        &mut self,
        set: SetWithValues,
        shelf: &mut S,
        out: &mut O,
        notes: &mut N,
    ) -> Result<(), WriteErr>
        requires begun { S.tells shelf.old ≡ true → IsSome (S.written shelf.old self.old.job.log.now) }
        requires members { All (IsMemberOf (asked_of self.old.job).problem.groups) set.members }
        requires within { AreWithin (asked_of self.old.job).problem.design.places.items (asked_of self.old.job).problem.groups }
        ensures job { self.new.job ≡ self.old.job }
        ensures search { self.new.search ≡ self.old.search }
        ensures units { self.new.left ≡ self.old.left }
        ensures kept { OnOk result (self.new.found.items ≡ self.old.found.items ++ set ∷ []) }
        ensures steps { OnOk result (self.new.steps ≡ length (D.state self.old.search).log) }
        ensures tells_shelf { S.tells shelf.new ≡ S.tells shelf.old }
        ensures tells_sink { O.tells out.new ≡ O.tells out.old }
        ensures texts { S.texts shelf.new ≡ S.texts shelf.old }
        ensures begun { S.tells shelf.old ≡ true → OnOk result (IsSome (S.written shelf.new self.old.job.log.now)) }
        ensures left { S.tells shelf.old ≡ true → O.tells out.old ≡ true
            → Leaves (set_writes (asked_of self.old.job) (record { steps = drop self.old.steps (D.state self.old.search).log; set = set }))
            (outputs (S.written shelf.old) (S.written shelf.new) (O.written out.old) (O.written out.new)) result }
        ensures causes { WriteCauses (counts_of (S.faults shelf.old) (S.faults shelf.new) (O.faults out.old) (O.faults out.new)) result }
    {
        // Room first, so that no set is printed that the report can't hold.
        if self.found.reserve(1).is_err() {
            return Err(WriteErr::NoMemory);
        }
        let log = self.search.log();
        let steps = log.len();
        let news = Written {
            log,
            before: self.steps,
        };
        put_steps(self.alloc, &self.job, &news, shelf, notes)?;
        print_set(self.alloc, &self.job, &set, out, notes)?;
        self.steps = steps;
        self.found.push(set).unwrap();
        Ok(())
    }

    /// Searches for the next set and writes it; an ending where there is none. Where a slice of the budget is spent and others are left,
    /// there is neither a set nor an ending.
    fn advance<S: Shelf, O: Sink, N: Notes>(
        &mut self,
        shelf: &mut S,
        out: &mut O,
        notes: &mut N,
    ) -> Result<Option<Ending>, Stop>
        requires room { HasRoom (D.state self.old.search) self.old.left }
        requires problem { (D.state self.old.search).problem ≡ (asked_of self.old.job).problem }
        requires begun { S.tells shelf.old ≡ true → IsSome (S.written shelf.old self.old.job.log.now) }
        ensures job { self.new.job ≡ self.old.job }
        ensures tells_shelf { S.tells shelf.new ≡ S.tells shelf.old }
        ensures tells_sink { O.tells out.new ≡ O.tells out.old }
        ensures texts { S.texts shelf.new ≡ S.texts shelf.old }
        ensures begun { S.tells shelf.old ≡ true → OnOk result (IsSome (S.written shelf.new self.old.job.log.now)) }
        ensures turn { (session : Session)
            → IsTurn (turn_of (asked_with self.old.job session) (D.state self.old.search) (D.state self.new.search)
            (record { found = self.old.found.items; steps = self.old.steps; left = self.old.left })
            (record { found = self.new.found.items; steps = self.new.steps; left = self.new.left })
            (outputs (S.written shelf.old) (S.written shelf.new) (O.written out.old) (O.written out.new))
            (S.tells shelf.old && O.tells out.old)) result }
        ensures causes { StopCauses (counts_of (S.faults shelf.old) (S.faults shelf.new) (O.faults out.old) (O.faults out.new)) result }
    {
        match next_in_slice(&mut self.search, &mut self.left) {
            Ok(Found::Set(set)) => {
                let count = self.found.len();
                stopped(self.take(set, shelf, out, notes), Some(count))?;
                Ok(None)
            }
            Ok(Found::End) => Ok(Some(Ending::Complete)),
            Ok(Found::Spent) if self.left > 0 => Ok(None),
            Ok(Found::Spent) => Ok(Some(Ending::Budget)),
            Err(NoMemory) => Err(Stop::Memory(Some(self.found.len()))),
        }
    }

    /// Tells how far the search is.
    fn tell_progress<N: Notes>(&self, sizes: &mut Sizes, notes: &mut N) {
        notes.note(&Note::Progress {
            size: sizes.size(self.search.log()),
            sets: u32::try_from(self.found.len()).unwrap_or(u32::MAX),
            steps: self.job.budget.saturating_sub(self.left),
            budget: self.job.budget,
        });
    }

    /// Searches until the list is whole, the budget is spent, or as many sets are found as were asked for.
    fn search_sets<S: Shelf, O: Sink, N: Notes>(
        &mut self,
        shelf: &mut S,
        out: &mut O,
        notes: &mut N,
    ) -> Result<Ending, Stop>
        requires job { IsJob (asked_with self.old.job (session_of self.old.found.items (D.state self.old.search))) }
        requires goes_with { GoesWith (asked_of self.old.job).problem (session_of self.old.found.items (D.state self.old.search)) (D.state self.old.search) }
        requires holds { IsDebugger (D.state self.old.search) }
        requires steps { self.old.steps ≡ length (D.state self.old.search).log }
        requires units { self.old.left ≡ self.old.job.budget }
        requires begun { S.tells shelf.old ≡ true → IsSome (S.written shelf.old self.old.job.log.now) }
        ensures job { self.new.job ≡ self.old.job }
        ensures tells_shelf { S.tells shelf.new ≡ S.tells shelf.old }
        ensures tells_sink { O.tells out.new ≡ O.tells out.old }
        ensures texts { S.texts shelf.new ≡ S.texts shelf.old }
        ensures begun { S.tells shelf.old ≡ true → OnOk result (IsSome (S.written shelf.new self.old.job.log.now)) }
        ensures left { IsSearched (searched_of (asked_with self.old.job (session_of self.old.found.items (D.state self.old.search)))
            (D.state self.new.search)
            self.new.found.items self.new.steps
            (outputs (beside (asked_of self.old.job).checkpoints (S.written shelf.old)) (beside (asked_of self.old.job).checkpoints (S.written shelf.new))
            (O.written out.old) (O.written out.new))
            (S.tells shelf.old && O.tells out.old)) result }
        ensures saved { S.tells shelf.old ≡ true → O.tells out.old ≡ true
            → RunSaves (asked_with self.old.job (session_of self.old.found.items (D.state self.old.search)))
            (S.written shelf.old) (S.written shelf.new) result }
        ensures goes_on { IfOk result (λ ending. ending_status ending ≡ 1 → (D.state self.new.search).ended ≡ false) }
        ensures unfinished { OnOk result ((D.state self.new.search).finished ≡ false) }
        ensures causes { StopCauses (counts_of (S.faults shelf.old) (S.faults shelf.new) (O.faults out.old) (O.faults out.new)) result }
    {
        let mut sizes = Sizes::behind(self.steps);
        let mut saves = Saves::none();
        let most = self.found.len() + self.job.sets as usize;
        while self.found.len() < most {
            self.save(&mut saves, shelf, notes)?;
            match self.advance(shelf, out, notes)? {
                None => self.tell_progress(&mut sizes, notes),
                Some(ending) => return Ok(ending),
            }
        }
        Ok(Ending::Sets)
    }

    /// Appends to the log of a list that isn't whole what shows that no set is missing before the last one, and answers the ending.
    fn finish(&mut self, ending: Ending) -> Result<Ending, Stop>
        requires front { ending_status ending ≡ 1 }
        requires goes_on { (D.state self.old.search).ended ≡ false }
        requires unfinished { (D.state self.old.search).finished ≡ false }
        ensures job { self.new.job ≡ self.old.job }
        ensures left { (session : Session) (o : Outputs) (told : Bool)
            → SearchEnds (searched_of (asked_with self.old.job session) (D.state self.old.search) self.old.found.items self.old.steps o told) ending
            → IsSearched (searched_of (asked_with self.old.job session) (D.state self.new.search) self.new.found.items self.new.steps o told) result }
        ensures shown { IfOk result (ShowsFront (D.state self.new.search)) }
        ensures causes { (counts : Counts) → NoneRose counts → StopCauses counts result }
    {
        match self.search.finish() {
            Ok(()) => Ok(ending),
            Err(NoMemory) => Err(Stop::Memory(Some(self.found.len()))),
        }
    }

    /// Searches for sets, and finishes the log where the list isn't whole by then.
    fn search_on<S: Shelf, O: Sink, N: Notes>(
        &mut self,
        shelf: &mut S,
        out: &mut O,
        notes: &mut N,
    ) -> Result<Ending, Stop>
        requires job { IsJob (asked_with self.old.job (session_of self.old.found.items (D.state self.old.search))) }
        requires goes_with { GoesWith (asked_of self.old.job).problem (session_of self.old.found.items (D.state self.old.search)) (D.state self.old.search) }
        requires holds { IsDebugger (D.state self.old.search) }
        requires steps { self.old.steps ≡ length (D.state self.old.search).log }
        requires units { self.old.left ≡ self.old.job.budget }
        requires begun { S.tells shelf.old ≡ true → IsSome (S.written shelf.old self.old.job.log.now) }
        ensures job { self.new.job ≡ self.old.job }
        ensures tells_shelf { S.tells shelf.new ≡ S.tells shelf.old }
        ensures tells_sink { O.tells out.new ≡ O.tells out.old }
        ensures texts { S.texts shelf.new ≡ S.texts shelf.old }
        ensures begun { S.tells shelf.old ≡ true → OnOk result (IsSome (S.written shelf.new self.old.job.log.now)) }
        ensures left { IsSearched (searched_of (asked_with self.old.job (session_of self.old.found.items (D.state self.old.search)))
            (D.state self.new.search)
            self.new.found.items self.new.steps
            (outputs (beside (asked_of self.old.job).checkpoints (S.written shelf.old)) (beside (asked_of self.old.job).checkpoints (S.written shelf.new))
            (O.written out.old) (O.written out.new))
            (S.tells shelf.old && O.tells out.old)) result }
        ensures saved { S.tells shelf.old ≡ true → O.tells out.old ≡ true
            → RunSaves (asked_with self.old.job (session_of self.old.found.items (D.state self.old.search)))
            (S.written shelf.old) (S.written shelf.new) result }
        ensures shown { IfOk result (ShowsFront (D.state self.new.search)) }
        ensures causes { StopCauses (counts_of (S.faults shelf.old) (S.faults shelf.new) (O.faults out.old) (O.faults out.new)) result }
    {
        let ending = self.search_sets(shelf, out, notes)?;
        if is_front(ending) {
            return self.finish(ending);
        }
        Ok(ending)
    }

    /// Checks the log of a list that is whole.
    fn check<R: Threads + Sync, G: Gate + Sync>(
        &self,
        workers: &Workers<R, G>,
        ending: Ending,
    ) -> Result<Verdict<'_>, NoMemory>
        requires workers { IsUpTo 64 workers.now.count }
        requires can { CanBeChecked (D.state self.now.search) self.now.found.items }
        ensures ending { IfOk result (λ verdict. verdict.ending ≡ ending) }
        ensures shown { IfOk result (IsVerdictOn (D.state self.now.search)) }
    {
        match ending {
            Ending::Complete => {
                let checked = check_log(self.alloc, workers, &self.search, &self.found)?;
                Ok(Verdict {
                    ending,
                    checked: Some(checked),
                })
            }
            Ending::Budget | Ending::Sets | Ending::Earlier => Ok(Verdict {
                ending,
                checked: None,
            }),
        }
    }

    /// Lists the sets, and writes all that is due.
    fn run<R: Threads + Sync, G: Gate + Sync, S: Shelf, O: Sink, N: Notes>(
        &mut self,
        workers: &Workers<R, G>,
        shelf: &mut S,
        out: &mut O,
        notes: &mut N,
    ) -> Result<Ending, Stop>
        requires workers { IsUpTo 64 workers.now.count }
        requires job { IsJob (asked_with self.old.job (session_of self.old.found.items (D.state self.old.search))) }
        requires goes_with { GoesWith (asked_of self.old.job).problem (session_of self.old.found.items (D.state self.old.search)) (D.state self.old.search) }
        requires holds { IsDebugger (D.state self.old.search) }
        requires steps { self.old.steps ≡ length (D.state self.old.search).log }
        requires units { self.old.left ≡ self.old.job.budget }
        ensures tells_shelf { S.tells shelf.new ≡ S.tells shelf.old }
        ensures tells_sink { O.tells out.new ≡ O.tells out.old }
        ensures texts { S.texts shelf.new ≡ S.texts shelf.old }
        ensures left { S.tells shelf.old ≡ true → O.tells out.old ≡ true
            → RunLeaves (asked_with self.old.job (session_of self.old.found.items (D.state self.old.search)))
            (outputs (beside (asked_of self.old.job).checkpoints (S.written shelf.old)) (beside (asked_of self.old.job).checkpoints (S.written shelf.new))
            (O.written out.old) (O.written out.new)) result }
        ensures saved { S.tells shelf.old ≡ true → O.tells out.old ≡ true
            → RunSaves (asked_with self.old.job (session_of self.old.found.items (D.state self.old.search)))
            (S.written shelf.old) (S.written shelf.new) result }
        ensures causes { StopCauses (counts_of (S.faults shelf.old) (S.faults shelf.new) (O.faults out.old) (O.faults out.new)) result }
    {
        self.open(shelf, out, notes)?;
        let ending = self.search_on(shelf, out, notes)?;
        let sets = Some(self.found.len());
        let Ok(verdict) = self.check(workers, ending) else {
            return Err(Stop::Memory(sets));
        };
        stopped(self.close(&verdict, shelf, out, notes), sets)?;
        Ok(ending)
    }
}

/// Whether a list that ended so isn't whole.
fn is_front(ending: Ending) -> bool
    ensures { IsTrue result ↔ (ending_status ending ≡ 1) }
{
    match ending {
        Ending::Complete => false,
        Ending::Budget | Ending::Sets | Ending::Earlier => true,
    }
}

/// Prints that memory was wanted, behind so many sets that are printed.
fn tell_memory<O: Sink, N: Notes>(
    alloc: Global,
    sets: Option<usize>,
    out: &mut O,
    notes: &mut N,
) -> Outcome
    ensures tells { O.tells out.new ≡ O.tells out.old }
    ensures left { O.tells out.old ≡ true → (written : List ℕ → Option (List ℕ))
        → TellsMemory sets (on_sink written (O.written out.old) (O.written out.new)) result }
    ensures cause { MemoryCause (O.faults out.old) (O.faults out.new) result }
{
    match print_memory(alloc, sets, out, notes) {
        Ok(()) => Outcome::Memory,
        Err(WriteErr::Failed) => Outcome::Failed,
        Err(WriteErr::NoMemory) => Outcome::Memory,
    }
}

/// Lists the sets of a problem and writes them as they are found: the log in portions, the lines of each set, the report, the waves,
/// and the last line. A list is said to be complete only where it is whole and its log was checked. Where it goes on from a session, log,
/// lines, report and waves begin with the session's.
pub fn list<R: Threads + Sync, G: Gate + Sync, D: Search + Drop, S: Shelf, O: Sink, N: Notes>(
    alloc: Global,
    workers: &Workers<R, G>,
    task: Task<D>,
    shelf: &mut S,
    out: &mut O,
    notes: &mut N,
) -> Outcome
    requires workers { IsUpTo 64 workers.now.count }
    requires job { IsJob (asked_with task.job (session_of task.found.items (D.state task.search))) }
    requires goes_with { GoesWith (asked_of task.job).problem (session_of task.found.items (D.state task.search)) (D.state task.search) }
    requires holds { IsDebugger (D.state task.search) }
    ensures tells_shelf { S.tells shelf.new ≡ S.tells shelf.old }
    ensures tells_sink { O.tells out.new ≡ O.tells out.old }
    ensures texts { S.texts shelf.new ≡ S.texts shelf.old }

    // What stands then beside the checkpoints, where they are asked for; what they hold; and under the other names what stood before.
    ensures left { S.tells shelf.old ≡ true → O.tells out.old ≡ true
        → Ends (asked_with task.entry.job (session_of task.entry.found.items (D.state task.entry.search)))
        (outputs (beside (asked_of task.entry.job).checkpoints (S.written shelf.old)) (beside (asked_of task.entry.job).checkpoints (S.written shelf.new))
        (O.written out.old) (O.written out.new)) result }
    ensures checkpoints { S.tells shelf.old ≡ true → O.tells out.old ≡ true
        → CheckpointsStand (asked_of task.entry.job).checkpoints (asked_with task.entry.job (session_of task.entry.found.items (D.state task.entry.search)))
        (S.written shelf.old) (S.written shelf.new) result }
    ensures others { S.tells shelf.old ≡ true → O.tells out.old ≡ true
        → (name : List ℕ) → name ≢ task.entry.job.log.now → name ≢ task.entry.job.report.now
        → is_checkpoint (asked_of task.entry.job).checkpoints name ≡ false
        → ¬ IsWave (asked_of task.entry.job).waves (length task.entry.found.items + (asked_of task.entry.job).sets)
        (length (asked_of task.entry.job).problem.traces) name
        → S.written shelf.new name ≡ S.written shelf.old name }
    ensures causes { OutcomeCause (counts_of (S.faults shelf.old) (S.faults shelf.new) (O.faults out.old) (O.faults out.new)) result }
{
    let Task { job, search, found } = task;
    let steps = search.log().len();
    let mut listing = Listing {
        alloc,
        job,
        search,
        found,
        steps,
        left: job.budget,
    };
    match listing.run(workers, shelf, out, notes) {
        Ok(ending) => Outcome::Ended(ending),
        Err(Stop::Failed) => Outcome::Failed,
        Err(Stop::Memory(sets)) => tell_memory(alloc, sets, out, notes),
    }
}
