//! The ports, by their names and lines.
ghost use Rattle.std.specs.Prelude.{◌≡◌, ◌≤◌, ◌<◌, ◌^◌, ◌-◌, ◌++◌, ℕ, length, map, IfOk, IfSome, OnOk};
ghost use Rattle.std.specs.List.{range_with_len};
ghost use Rattle.std.specs.Option.{option_copied, option_to_list};
ghost use Rattle.loc_base.specs.Name.{IsName};
ghost use Rattle.aiger_text.specs.Rows.{first_and, row_count};
ghost use Rattle.aiger_text.specs.Content.{content_of};
ghost use Rattle.aiger_rules.specs.Names.{AreSymbols, port_name};
ghost use Rattle.aiger_rules.specs.Ports.{left_out, port_line, port_lines, port_names, rows_without};

use crate::names::Named;
use aiger_text::Counts;
use loc_base::{Name, NoMemory, Rows};
use std::alloc::Global;

/// The ports of a design in order: the clock where one is named, the inputs, the outputs.
pub struct Ports {
    /// The row of the input that is the clock; the number of inputs where none is.
    pub left_out: u64,
    /// The names of the ports.
    pub names: Rows<u8>,
}

// A `drop` is written out, so that it is proved once, here: a derived one is proved again by each crate that lets a value go.
impl Drop for Ports {
    fn drop(self) {
        let Ports {
            left_out: _,
            names: _,
        } = self;
    }
}

/// How many inputs are counted.
pub(crate) fn inputs_of(counts: Counts) -> u64
    ensures is { result ≡ counts.inputs }
    ensures low { result ≤ 4294967295 }
{
    u64::from(counts.inputs)
}

/// The name of the clock, where one is named.
fn clock_names(alloc: Global, clock: Option<&Name>) -> Result<Rows<u8>, NoMemory>
    ensures same { IfOk result (λ names. names ≡ option_to_list (option_copied clock.entry)) }
    ensures named { IfOk result (λ _. IfSome (option_copied clock.entry) IsName) }
{
    let mut names = Rows::new(alloc);
    match clock {
        Some(name) => {
            names.push(name.as_bytes())?;
            Ok(names)
        }
        None => Ok(names),
    }
}

/// The line of the clock, where one is named.
fn clock_lines(alloc: Global, clock: Option<&Name>) -> Result<Vec<u64>, NoMemory>
    ensures { IfOk result (λ lines. lines.items ≡ map (λ _. 1) (option_to_list (option_copied clock.entry))) }
{
    let mut lines = Vec::new(alloc);
    match clock {
        Some(_name) => {
            lines.push(1)?;
            Ok(lines)
        }
        None => Ok(lines),
    }
}

impl Named<'_, '_> {
    /// Appends the names of the ports of rows, from one up to another.
    #[tactic(auto, using(crate::proofs::PortSteps::range_steps))]
    fn push_names(&self, names: &mut Rows<u8>, from: u64, to: u64) -> Result<(), NoMemory>
        requires { AreSymbols (content_of self.now.content.now) self.now.symbols.now }
        ensures { OnOk result (names.new ≡ names.old
            ++ map (port_name (content_of self.now.content.now)) (range_with_len from (to - from))) }
    {
        for row in from..to {
            let name = self.port_name(row)?;
            names.push(name.as_slice())?;
        }
        Ok(())
    }

    /// The names of the ports, the clock's in front, where the input of a row is left out.
    #[tactic(auto, using(crate::proofs::PortSteps::list_steps))]
    pub(crate) fn names(&self, clock: Option<&Name>, out: u64) -> Result<Rows<u8>, NoMemory>
        requires symbols { AreSymbols (content_of self.now.content.now) self.now.symbols.now }
        requires within { out ≤ self.now.content.now.counts.inputs }
        ensures low { IfOk result (λ _. first_and self.now.content.now.counts < 2 ^ 64) }
        ensures named { IfOk result (λ _. IfSome (option_copied clock.entry) IsName) }
        ensures same { IfOk result (λ names. names ≡ option_to_list (option_copied clock.entry)
            ++ map (port_name (content_of self.now.content.now)) (rows_without self.now.content.now.counts out)) }
    {
        let counts = self.content.counts;
        let inputs = inputs_of(counts);
        let mut names = clock_names(self.alloc, clock)?;
        self.push_names(&mut names, 0, out)?;
        self.push_names(&mut names, out + 1, inputs)?;
        self.push_names(&mut names, counts.first_output(), counts.first_and())?;
        Ok(names)
    }

    /// The line of the port of a row.
    fn port_line(&self, row: u64) -> u64
        requires symbols { AreSymbols (content_of self.now.content.now) self.now.symbols.now }
        requires few { length self.now.content.now.symbols.items ≤ 16777216 }
        requires low { row ≤ row_count self.now.content.now.counts }
        ensures { result ≡ port_line (content_of self.now.content.now) row }
    {
        let rows = self.content.counts.rows();
        match self.symbols.find(row) {
            Some(place) => rows + place as u64 + 2,
            None => row + 2,
        }
    }

    /// Appends the lines of the ports of rows, from one up to another.
    #[tactic(auto, using(crate::proofs::PortSteps::range_steps))]
    fn push_lines(&self, lines: &mut Vec<u64>, from: u64, to: u64) -> Result<(), NoMemory>
        requires symbols { AreSymbols (content_of self.now.content.now) self.now.symbols.now }
        requires few { length self.now.content.now.symbols.items ≤ 16777216 }
        requires low { to ≤ row_count self.now.content.now.counts }
        ensures { OnOk result (lines.new.items ≡ lines.old.items
            ++ map (port_line (content_of self.now.content.now)) (range_with_len from (to - from))) }
    {
        for row in from..to {
            lines.push(self.port_line(row))?;
        }
        Ok(())
    }

    /// The lines of the ports, where the input of a row is left out.
    #[tactic(auto, using(crate::proofs::PortSteps::list_steps))]
    pub(crate) fn lines(&self, clock: Option<&Name>, out: u64) -> Result<Vec<u64>, NoMemory>
        requires symbols { AreSymbols (content_of self.now.content.now) self.now.symbols.now }
        requires few { length self.now.content.now.symbols.items ≤ 16777216 }
        requires within { out ≤ self.now.content.now.counts.inputs }
        ensures { IfOk result (λ lines. lines.items ≡ map (λ _. 1) (option_to_list (option_copied clock.entry))
            ++ map (port_line (content_of self.now.content.now)) (rows_without self.now.content.now.counts out)) }
    {
        let counts = self.content.counts;
        let inputs = inputs_of(counts);
        let mut lines = clock_lines(self.alloc, clock)?;
        self.push_lines(&mut lines, 0, out)?;
        self.push_lines(&mut lines, out + 1, inputs)?;
        self.push_lines(&mut lines, counts.first_output(), counts.first_and())?;
        Ok(lines)
    }
}
