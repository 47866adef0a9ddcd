//! The drivers and the clocked blocks.
ghost use Rattle.std.specs.Prelude.{◌≡◌, ◌<◌, ◌≤◌, ◌++◌, IfOk, OnOk};
ghost use Rattle.aiger_text.specs.Rows.{first_latch, first_output, first_and, row_count};
ghost use Rattle.aiger_design.specs.Numbering.{and_number, and_signal, latch_number, latch_signal, output_signal};
ghost use Rattle.aiger_design.specs.Drivers.{whole, and_driver, output_driver, and_drivers, output_drivers, drivers_of, latch_block, blocks_of};
ghost use Rattle.aiger_design.specs.Stands.{Stands};

use crate::file::File;
use design_core::{Clocked, Driver, Part, Stmt, Target};
use loc_base::{Items, NoMemory, Span};
use std::alloc::Global;

/// A left side that is a whole signal.
fn whole(alloc: Global, signal: u32) -> Result<Target, NoMemory>
    ensures { IfOk result (λ target. target ≡ whole signal) }
{
    let mut parts = Items::new(alloc);
    parts.push(Part::Whole(signal))?;
    Ok(Target { parts })
}

/// A line as a span.
fn line_span(line: u32) -> Span
    ensures { result ≡ record { from = line; to = line } }
{
    Span {
        from: line,
        to: line,
    }
}

impl File<'_> {
    /// The driver of an AND's row.
    fn and_driver(&self, row: u64) -> Result<Driver, NoMemory>
        requires stands { Stands self.now }
        requires first { first_and self.now.numbering.counts ≤ row }
        requires within { row < row_count self.now.numbering.counts }
        ensures { IfOk result (λ driver. driver ≡ and_driver self.now.rows.now self.now.numbering row) }
    {
        let target = whole(self.alloc, self.numbering.and_signal(row))?;
        let value = self.and_value(row)?;
        Ok(Driver::Cont {
            target,
            value,
            place: Some(self.numbering.and_number(row)),
            span: line_span(self.numbering.line(row)),
        })
    }

    /// The driver of an output's row.
    fn output_driver(&self, row: u64) -> Result<Driver, NoMemory>
        requires stands { Stands self.now }
        requires first { first_output self.now.numbering.counts ≤ row }
        requires within { row < first_and self.now.numbering.counts }
        ensures { IfOk result (λ driver. driver ≡ output_driver self.now.rows.now self.now.numbering row) }
    {
        let target = whole(self.alloc, self.numbering.output_signal(row))?;
        let value = self.first_value(row)?;
        Ok(Driver::Cont {
            target,
            value,
            place: None,
            span: line_span(self.numbering.line(row)),
        })
    }

    /// The block of a latch's row.
    fn latch_block(&self, row: u64) -> Result<Clocked, NoMemory>
        requires stands { Stands self.now }
        requires first { first_latch self.now.numbering.counts ≤ row }
        requires within { row < first_output self.now.numbering.counts }
        ensures { IfOk result (λ block. block ≡ latch_block self.now.rows.now self.now.numbering row) }
    {
        let target = whole(self.alloc, self.numbering.latch_signal(row))?;
        let value = self.first_value(row)?;
        let body = Stmt::Set {
            place: self.numbering.latch_number(row),
            target,
            value,
            later: true,
        };
        Ok(Clocked { reset: None, body })
    }

    /// Appends the drivers of the ANDs.
    #[tactic(auto, using(crate::proofs::Ranges::range_steps))]
    fn push_ands(&self, drivers: &mut Vec<Driver>) -> Result<(), NoMemory>
        requires { Stands self.now }
        ensures { OnOk result (drivers.new.items ≡ drivers.old.items ++ and_drivers self.now.rows.now self.now.numbering) }
    {
        let counts = self.numbering.counts;
        for row in counts.first_and()..counts.rows() {
            drivers.push(self.and_driver(row)?)?;
        }
        Ok(())
    }

    /// Appends the drivers of the outputs.
    #[tactic(auto, using(crate::proofs::Ranges::range_steps))]
    fn push_outputs(&self, drivers: &mut Vec<Driver>) -> Result<(), NoMemory>
        requires { Stands self.now }
        ensures { OnOk result (drivers.new.items ≡ drivers.old.items ++ output_drivers self.now.rows.now self.now.numbering) }
    {
        let counts = self.numbering.counts;
        for row in counts.first_output()..counts.first_and() {
            drivers.push(self.output_driver(row)?)?;
        }
        Ok(())
    }

    /// The drivers.
    pub(crate) fn drivers(&self) -> Result<Vec<Driver>, NoMemory>
        requires { Stands self.now }
        ensures { IfOk result (λ drivers. drivers.items ≡ drivers_of self.now.rows.now self.now.numbering) }
    {
        let mut drivers = Vec::new(self.alloc);
        self.push_ands(&mut drivers)?;
        self.push_outputs(&mut drivers)?;
        Ok(drivers)
    }

    /// The clocked blocks.
    #[tactic(auto, using(crate::proofs::Ranges::range_steps))]
    pub(crate) fn blocks(&self) -> Result<Vec<Clocked>, NoMemory>
        requires { Stands self.now }
        ensures { IfOk result (λ blocks. blocks.items ≡ blocks_of self.now.rows.now self.now.numbering) }
    {
        let counts = self.numbering.counts;
        let mut blocks = Vec::new(self.alloc);
        for row in u64::from(counts.inputs)..counts.first_output() {
            blocks.push(self.latch_block(row)?)?;
        }
        Ok(blocks)
    }
}
