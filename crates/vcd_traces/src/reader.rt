//! The times and the value changes behind a header, read piece by piece (IEEE 1364-2005, 18.2.1 and 18.2.2).
ghost use Rattle.std.specs.Prelude.{◌≡◌, ◌≤◌, ◌<◌, ℕ, List, IsTrue, OnOk, IfOk, length};
ghost use Rattle.vcd_reading.specs.Header.{Header};
ghost use Rattle.vcd_reading.specs.Outcomes.{begun};
ghost use Rattle.std.specs.List.{list_all};
ghost use Rattle.vcd_traces.specs.Moment.{has_width};
ghost use Rattle.vcd_traces.specs.Rows.{rows_of};
ghost use Rattle.vcd_traces.specs.Closing.{closed};
ghost use Rattle.vcd_reading.specs.Changes.{Past, timed, changed, passed_over};
ghost use Rattle.vcd_traces.specs.Samples.{Watches};
ghost use Rattle.vcd_traces.specs.Levels.{Does};
ghost use Rattle.vcd_reading.specs.Scopes.{Sought};
ghost use Rattle.vcd_traces.specs.Table.{IsTable, cell_codes};
ghost use Rattle.vcd_traces.specs.Plan.{IsWatched, Holds};

use crate::changes::{Change, Levels};
use crate::moment::Moment;
use crate::rows::{Rows, Watched};
use crate::running::Running;
use crate::table::Table;
use loc_base::NoMemory;
use std::alloc::Global;
use vcd_reading::VcdErr;
use vcd_words::Level;

/// What a header asks of its changes: the table of its codes, and the ports that are sampled.
#[derive(Drop)]
pub struct Plan<'a> {
    pub table: Table<'a>,
    pub watched: Watched,
}

/// What is kept while changes are read: the levels of variables, and the cycles of the stamps that have ended.
#[derive(Drop)]
pub struct Reading {
    pub levels: Levels,
    pub rows: Rows,
}

impl Reading {
    /// What is kept of the variables of some cells before the first change.
    #[tactic(auto, using(crate::proofs::BeginLaws::begin_steps))]
    pub fn new(alloc: Global, cells: usize) -> Result<Reading, NoMemory>
        ensures { IfOk result (λ reading. (w : Watches) (codes : List (List ℕ)) (h : Header) → length codes ≡ cells → Holds w codes (begun h) reading) }
    {
        let mut running = Vec::new(alloc);
        while running.len() < cells {
            running.push(Running::new())?;
        }
        Ok(Reading {
            levels: Levels {
                time: None,
                running,
            },
            rows: Rows::new(alloc),
        })
    }

    /// The stamp at hand ends, where there is one: it may be a cycle.
    pub fn close(&mut self, watched: &Watched) -> Result<(), NoMemory>
        requires inputs { IsTrue (list_all has_width watched.now.inputs.items) }
        requires outputs { IsTrue (list_all has_width watched.now.outputs.items) }
        ensures levels { OnOk result (self.new.levels ≡ self.old.levels) }
        ensures rows { OnOk result (rows_of self.new.rows ≡ closed watched.now self.old.levels (rows_of self.old.rows)) }
    {
        let Some(time) = self.levels.time else {
            return Ok(());
        };
        let moment = Moment {
            running: self.levels.running.as_slice(),
            clocked: watched.clock.is_some(),
            time,
        };
        if moment.is_cycle(watched.clock) {
            self.rows.push(&moment, watched)?;
        }
        Ok(())
    }

    /// A time stands at an offset: one that is greater than the last ends a stamp and begins another.
    pub fn take_time(&mut self, watched: &Watched, time: u64, at: usize) -> Result<(), VcdErr>
        requires inputs { IsTrue (list_all has_width watched.now.inputs.items) }
        requires outputs { IsTrue (list_all has_width watched.now.outputs.items) }
        ensures { (w : Watches) (cells : List (List ℕ)) (past : Past) → IsWatched w cells watched.now → Holds w cells past self.old
            → Does (timed past time at) (Holds w cells) result self.new }
    {
        if let Some(last) = self.levels.time {
            if time < last {
                return Err(VcdErr::Syntax { offset: at });
            }
            if time == last {
                return Ok(());
            }
        }
        self.close(watched)?;
        self.levels.time = Some(time);
        Ok(())
    }

    /// A variable changes to a level of some digits.
    pub fn take_change(
        &mut self,
        table: &Table<'_>,
        change: &Change<'_>,
        level: Level,
        digits: usize,
    ) -> Result<(), VcdErr>
        ensures { (sought : Sought) (w : Watches) (past : Past) → IsTable past.header sought table.now → Holds w (cell_codes table.now) past self.old
            → Does (changed sought past level digits change.now.value_at (record { at = change.now.code_at; word = change.now.code.now })) (Holds w (cell_codes table.now)) result self.new }
    {
        self.levels.change(table, change, level, digits)?;
        Ok(())
    }

    /// A variable has a value that is no bits.
    pub fn take_pass(&self, table: &Table<'_>, change: &Change<'_>) -> Result<(), VcdErr>
        ensures { (sought : Sought) (w : Watches) (past : Past) → IsTable past.header sought table.now → Holds w (cell_codes table.now) past self.now
            → Does (passed_over sought past change.now.value_at (record { at = change.now.code_at; word = change.now.code.now })) (Holds w (cell_codes table.now)) result self.now }
    {
        self.levels.pass(table, change)?;
        Ok(())
    }
}
