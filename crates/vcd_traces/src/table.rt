//! The table of the codes that a header declares, with a cell for each code of a port (IEEE 1364-2005, 18.2.3).
ghost use Rattle.std.specs.Prelude.{◌≡◌, ℕ, true, List, All, Some, None, OnOk, IfOk, length, map, slice_get, if◌then◌else◌};
ghost use Rattle.std.specs.List.{list_any};
ghost use Rattle.vcd_reading.specs.Commands.{same_bytes};
ghost use Rattle.vcd_reading.specs.Header.{Header as TheHeader, Variable as TheVariable};
ghost use Rattle.vcd_reading.specs.Scopes.{Sought, is_declared, is_of_port};
ghost use Rattle.vcd_reading.specs.HeaderView.{variable_of};
ghost use Rattle.vcd_traces.specs.declared.codes.Role.TheVariants.{Other as OfNone};
ghost use Rattle.vcd_traces.specs.Table.{role_of, with_role, cell_codes, given_role, with_cell, IsTable, IsTableOf};
ghost use Rattle.vcd_traces.specs.Sites.{site_port, IsSite};

use crate::codes::{Codes, Role};
use crate::sites::Site;
use loc_base::NoMemory;
use std::alloc::Global;
use vcd_reading::Variable;

/// The declared codes with their roles, and the code of each cell.
#[derive(Drop)]
pub struct Table<'a> {
    pub codes: Codes<'a>,
    pub cells: Vec<&'a [u8]>,
}

impl<'a> Table<'a> {
    /// One more port has a code, whose values may have so many digits: the code keeps its cell, or gets the next one.
    fn give(&mut self, code: &'a [u8], most: u8) -> Result<(), NoMemory>
        ensures roles { OnOk result ((other : List ℕ) → role_of self.new.codes other
            ≡ with_role code.now (given_role (role_of self.old.codes code.now) (length (cell_codes self.old)) most) (role_of self.old.codes) other) }
        ensures cells { OnOk result (cell_codes self.new ≡ with_cell (role_of self.old.codes code.now) (cell_codes self.old) code.now) }
    {
        match self.codes.find(code) {
            Some(Role::Port { cell, limit }) => {
                let limit = limit.min(most);
                self.codes.set(code, Role::Port { cell, limit })
            }
            Some(Role::Other) | None => {
                let cell = self.cells.len();
                self.cells.push(code)?;
                self.codes.set(code, Role::Port { cell, limit: most })
            }
        }
    }

    /// The cell of the code of a port.
    pub fn cell(&self, code: &[u8]) -> usize
        ensures { (h : TheHeader) (sought : Sought) → IsTable h sought self.now → is_declared h code.now ≡ true → is_of_port h sought code.now ≡ true
            → slice_get (cell_codes self.now) result ≡ Some code.now }
    {
        match self.codes.find(code) {
            Some(Role::Port { cell, .. }) => cell,
            Some(Role::Other) => 0,
            None => 0,
        }
    }
}

/// The codes of some variables, as codes of no port.
pub fn declared_codes<'a>(alloc: Global, variables: &[Variable<'a>]) -> Result<Codes<'a>, NoMemory>
    ensures { IfOk result (λ codes. (code : List ℕ) → role_of codes code ≡ (if list_any (λ (v : TheVariable). same_bytes v.code code) (map variable_of variables.now) then Some OfNone else None)) }
{
    let mut codes = Codes::new(alloc, variables.len())?;
    for variable in variables {
        codes.set(variable.code, Role::Other)?;
    }
    Ok(codes)
}

/// The codes of some variables, with the cells of those that some ports have.
pub fn port_table<'a>(
    alloc: Global,
    variables: &[Variable<'a>],
    sites: &[Site<'a>],
) -> Result<Table<'a>, NoMemory>
    ensures { IfOk result (λ table. (h : TheHeader) (sought : Sought) → h.variables ≡ map variable_of variables.now → All (IsSite h sought) sites.now
        → IsTableOf h sought (map site_port sites.now) table) }
{
    let mut table = Table {
        codes: declared_codes(alloc, variables)?,
        cells: Vec::new(alloc),
    };
    for site in sites {
        table.give(site.place.variable.code, site.most_digits())?;
    }
    Ok(table)
}
