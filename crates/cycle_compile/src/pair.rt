//! The first two parts of a concatenation.

ghost use Rattle.std.specs.Prelude.{◌≡◌, ◌+◌, IsTrue, IfOk, OnOk};
ghost use Rattle.design_core.specs.WellFormed.{typed_fits};
ghost use Rattle.cycle_code.specs.Program.{program_of};
ghost use Rattle.cycle_code.specs.Cells.{width_in};
ghost use Rattle.cycle_code.specs.Fitting.{is_own, IsSound};
ghost use Rattle.cycle_compile.specs.Computing.{AwaitsPair};

use crate::expression::place;
use cycle_code::{Code, Instruction};
use design_core::Typed;
use loc_base::NoMemory;

/// The first two parts of a concatenation joined, and their cells, which are to be computed before.
pub(crate) fn join_pair(
    code: &mut Code,
    left: &Typed,
    right: &Typed,
    cell: u32,
) -> Result<(u32, u32), NoMemory>
    requires sound { IsSound (program_of code.old) }
    requires left { IsTrue (typed_fits code.old.design.now.signals.items left.now) }
    requires right { IsTrue (typed_fits code.old.design.now.signals.items right.now) }
    requires own { IsTrue (is_own (program_of code.old) cell) }
    requires size { width_in (program_of code.old).widths cell ≡ left.now.width + right.now.width }
    ensures awaits { IfOk result (λ cells. AwaitsPair (program_of code.old) (program_of code.new) left.now right.now cell cells.0 cells.1) }
    ensures sound { OnOk result (IsSound (program_of code.new)) }
{
    let high = place(code, left)?;
    let low = place(code, right)?;
    code.push(Instruction::Join {
        high,
        low,
        to: cell,
    })?;
    Ok((high, low))
}
