//! Times and value changes (IEEE 1364-2005, 18.2.1), by the levels that are kept of each variable of a port.
ghost use Rattle.std.specs.Prelude.{◌≡◌, ◌≤◌, ◌<◌, ℕ, List, Ok, Err, OnOk, length};
ghost use Rattle.vcd_reading.specs.Changes.{Past, changed, passed_over};
ghost use Rattle.vcd_reading.specs.Scopes.{Sought};
ghost use Rattle.vcd_traces.specs.Table.{IsTable, cell_codes};
ghost use Rattle.vcd_traces.specs.Levels.{Keeps, Does, with_change};

use crate::codes::Role;
use crate::running::Running;
use crate::table::Table;
use vcd_reading::VcdErr;
use vcd_words::Level;

/// The last time, and what is kept of the variable of each cell of a table.
#[derive(Drop)]
pub struct Levels {
    pub time: Option<u64>,
    pub running: Vec<Running>,
}

/// Where a value change stands: the offset of its value, the offset of its code, and the code.
#[derive(Clone, Copy)]
pub struct Change<'a> {
    pub value_at: usize,
    pub code_at: usize,
    pub code: &'a [u8],
}

impl Levels {
    /// The variable of a cell changes.
    fn change_cell(&mut self, cell: usize, level: Level)
        ensures time { self.new.time ≡ self.old.time }
        ensures running { self.new.running.items ≡ with_change self.old.running.items cell self.old.time level }
    {
        if cell < self.running.len() {
            self.running[cell].change(self.time, level);
        }
    }

    /// A variable changes to a level of some digits.
    pub fn change(
        &mut self,
        table: &Table<'_>,
        change: &Change<'_>,
        level: Level,
        digits: usize,
    ) -> Result<(), VcdErr>
        ensures { (sought : Sought) (past : Past) → IsTable past.header sought table.now → Keeps (cell_codes table.now) past self.old
            → Does (changed sought past level digits change.now.value_at (record { at = change.now.code_at; word = change.now.code.now })) (Keeps (cell_codes table.now)) result self.new }
    {
        match table.codes.find(change.code) {
            None => Err(VcdErr::Syntax {
                offset: change.code_at,
            }),
            Some(Role::Other) => Ok(()),
            Some(Role::Port { cell, limit }) => {
                if (limit as usize) < digits {
                    return Err(VcdErr::Syntax {
                        offset: change.value_at,
                    });
                }
                self.change_cell(cell, level);
                Ok(())
            }
        }
    }

    /// A variable has a value that is no bits.
    pub fn pass(&self, table: &Table<'_>, change: &Change<'_>) -> Result<(), VcdErr>
        ensures { (sought : Sought) (past : Past) → IsTable past.header sought table.now → Keeps (cell_codes table.now) past self.now
            → Does (passed_over sought past change.now.value_at (record { at = change.now.code_at; word = change.now.code.now })) (Keeps (cell_codes table.now)) result self.now }
    {
        match table.codes.find(change.code) {
            None => Err(VcdErr::Syntax {
                offset: change.code_at,
            }),
            Some(Role::Other) => Ok(()),
            Some(Role::Port { .. }) => Err(VcdErr::Syntax {
                offset: change.value_at,
            }),
        }
    }
}
