//! Tests that conditions are made of. Each is pushed with new cells for its operands, which are to be computed before it.

ghost use Rattle.std.specs.Prelude.{◌≡◌, ◌≤◌, IsTrue, IfOk, OnOk, length};
ghost use Rattle.design_core.specs.WellFormed.{typed_fits};
ghost use Rattle.cycle_code.specs.Program.{program_of};
ghost use Rattle.cycle_code.specs.Fitting.{IsSound};
ghost use Rattle.cycle_compile.specs.Computing.{is_zero, AwaitsValue, AwaitsOperands};

use crate::branch::{branch_equal, branch_if};
use crate::expression::place;
use cycle_code::Code;
use design_core::{Node, Typed};
use loc_base::NoMemory;

/// Whether an expression is a constant 0.
pub(crate) fn is_zero(e: &Typed) -> bool
    ensures { result ≡ is_zero e.now.node }
{
    match &e.node {
        Node::Const(word) => word.value() == 0,
        _ => false,
    }
}

/// A test of the value, and its cell.
pub(crate) fn test_value(code: &mut Code, e: &Typed, yes: u32, no: u32) -> Result<u32, NoMemory>
    requires sound { IsSound (program_of code.old) }
    requires fits { IsTrue (typed_fits code.old.design.now.signals.items e.now) }
    requires yes { yes ≤ length (program_of code.old).instructions }
    requires no { no ≤ length (program_of code.old).instructions }
    ensures awaits { IfOk result (λ cell. AwaitsValue (program_of code.old) (program_of code.new) e.now cell yes no) }
    ensures sound { OnOk result (IsSound (program_of code.new)) }
{
    let cond = place(code, e)?;
    branch_if(code, cond, yes, no)?;
    Ok(cond)
}

/// A test whether two operands have one number, and their cells.
pub(crate) fn test_equal(
    code: &mut Code,
    left: &Typed,
    right: &Typed,
    yes: u32,
    no: u32,
) -> Result<(u32, u32), NoMemory>
    requires sound { IsSound (program_of code.old) }
    requires left { IsTrue (typed_fits code.old.design.now.signals.items left.now) }
    requires right { IsTrue (typed_fits code.old.design.now.signals.items right.now) }
    requires yes { yes ≤ length (program_of code.old).instructions }
    requires no { no ≤ length (program_of code.old).instructions }
    ensures awaits { IfOk result (λ cells. AwaitsOperands (program_of code.old) (program_of code.new) left.now cells.0 right.now cells.1 yes no) }
    ensures sound { OnOk result (IsSound (program_of code.new)) }
{
    let high = place(code, left)?;
    let low = place(code, right)?;
    branch_equal(code, high, low, yes, no)?;
    Ok((high, low))
}
