//! The design of a file.
ghost use Rattle.std.specs.Prelude.{◌≡◌, All, ◌+◌, ◌-◌, ◌≤◌, length, IfOk};
ghost use Rattle.std.specs.List.{range_with_len};
ghost use Rattle.loc_base.specs.Name.{IsName};
ghost use Rattle.aiger_design.specs.Numbering.{first_register};
ghost use Rattle.aiger_design.specs.File.{IsDesignBy};
ghost use Rattle.aiger_design.specs.Stands.{Stands};

use crate::file::File;
use design_core::Design;
use loc_base::{Name, NoMemory, Rows};
use std::alloc::Global;

/// The numbers from one up to another.
#[tactic(auto, using(crate::proofs::Ranges::number_steps))]
fn numbers(alloc: Global, from: u64, to: u64) -> Result<Vec<u32>, NoMemory>
    requires { to ≤ 1048576 }
    ensures { IfOk result (λ numbers. numbers.items ≡ range_with_len from (to - from)) }
{
    let mut numbers = Vec::new(alloc);
    for number in from..to {
        numbers.push(number as u32)?;
    }
    Ok(numbers)
}

impl File<'_> {
    /// The design, by the names of the ports and the top's name.
    pub(crate) fn design(&self, names: &Rows<u8>, top: &Name) -> Result<Design, NoMemory>
        requires stands { Stands self.now }
        requires names { All IsName names.now }
        requires long { length names.now ≡ first_register self.now.numbering + self.now.numbering.counts.outputs }
        ensures { IfOk result (IsDesignBy self.now.rows.now self.now.numbering names.now top.now) }
    {
        let numbering = self.numbering;
        let result = numbering.first_result();
        let outputs = u64::from(numbering.counts.outputs);
        Ok(Design {
            signals: self.signals(names)?,
            drivers: self.drivers()?,
            clocked: self.blocks()?,
            places: self.places(top)?,
            inputs: numbers(self.alloc, numbering.clocks, numbering.first_register())?,
            outputs: numbers(self.alloc, result, result + outputs)?,
        })
    }
}
