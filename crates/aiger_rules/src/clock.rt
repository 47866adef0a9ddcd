//! The input that is the clock.
ghost use Rattle.std.specs.Prelude.{◌≡◌, ◌==◌, ◌<◌, ◌≤◌, ℕ, IfOk, IfSome};
ghost use Rattle.std.specs.Option.{option_copied};
ghost use Rattle.aiger_text.specs.Content.{content_of};
ghost use Rattle.aiger_rules.specs.Literals.{even, some_read};
ghost use Rattle.aiger_rules.specs.Names.{AreSymbols};
ghost use Rattle.aiger_rules.specs.Ports.{input_named, is_read, left_out, literal_at, unread};

use crate::literals::defined;
use crate::names::Named;
use aiger_text::Row;
use loc_base::{Name, NoMemory};

/// Whether a row reads a literal's variable.
fn reads(row: Row, literal: u64) -> bool
    ensures { result ≡ some_read (λ read. even read == literal) row }
{
    match row {
        Row::Input { .. } => false,
        Row::Latch { next, .. } => u64::from(next / 2 * 2) == literal,
        Row::Output { literal: read } => u64::from(read / 2 * 2) == literal,
        Row::And { left, right, .. } => {
            u64::from(left / 2 * 2) == literal || u64::from(right / 2 * 2) == literal
        }
    }
}

/// Whether some row reads a literal's variable.
fn is_read(rows: &[Row], literal: u64) -> bool
    ensures { result ≡ is_read rows.now literal }
{
    rows.iter().any(|row| reads(*row, literal))
}

/// The literal that the row of a number defines.
fn literal_at(rows: &[Row], number: u64) -> u64
    ensures { result ≡ literal_at rows.now number }
{
    match rows.get(number as usize) {
        Some(row) => defined(*row).unwrap_or(0),
        None => 0,
    }
}

impl Named<'_, '_> {
    /// The row of the first input that has a name.
    #[tactic(auto, using(crate::proofs::PortSteps::input_steps))]
    fn input_named(&self, name: &Name) -> Result<Option<u64>, NoMemory>
        requires { AreSymbols (content_of self.now.content.now) self.now.symbols.now }
        ensures row { IfOk result (λ row. row ≡ input_named (content_of self.now.content.now) name.now) }
        ensures within { IfOk result (λ row. IfSome row (λ r. r < self.now.content.now.counts.inputs)) }
    {
        for row in 0..u64::from(self.content.counts.inputs) {
            let own = self.port_name(row)?;
            if own.as_slice() == name.as_bytes() {
                return Ok(Some(row));
            }
        }
        Ok(None)
    }

    /// The row of an input that no row reads.
    fn unread(&self, row: u64) -> Option<u64>
        ensures { result ≡ unread (content_of self.now.content.now) row }
    {
        let rows = self.content.rows.as_slice();
        if is_read(rows, literal_at(rows, row)) {
            None
        } else {
            Some(row)
        }
    }

    /// The row of the input that is the clock; the number of inputs where none is.
    pub(crate) fn left_out(&self, clock: Option<&Name>) -> Result<u64, NoMemory>
        requires { AreSymbols (content_of self.now.content.now) self.now.symbols.now }
        ensures row { IfOk result (λ row. row ≡ left_out (content_of self.now.content.now) (option_copied clock.entry)) }
        ensures within { IfOk result (λ row. row ≤ self.now.content.now.counts.inputs) }
    {
        let inputs = u64::from(self.content.counts.inputs);
        let Some(name) = clock else {
            return Ok(inputs);
        };
        match self.input_named(name)? {
            Some(row) => Ok(self.unread(row).unwrap_or(inputs)),
            None => Ok(inputs),
        }
    }
}
