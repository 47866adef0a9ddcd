//! Instructions of operators. Each is pushed with new cells for its operands, which are to be computed before it.

ghost use Rattle.std.specs.Prelude.{◌≡◌, ◌+◌, IsTrue, IfOk, OnOk};
ghost use Rattle.design_core.specs.WellFormed.{is_width, typed_fits};
ghost use Rattle.design_core.specs.declared.expression.Node.TheVariants as node;
ghost use Rattle.cycle_code.specs.Program.{program_of};
ghost use Rattle.cycle_code.specs.Cells.{width_in};
ghost use Rattle.cycle_code.specs.Fitting.{is_own, IsSound};
ghost use Rattle.cycle_compile.specs.Compiling.{IsPlaceFor, Values};
ghost use Rattle.cycle_compile.specs.Computing.{DoesAs, Awaits, AwaitsBoth, AwaitsPart};

use crate::expression::place;
use cycle_code::{Code, Instruction};
use design_core::{BinaryOp, Typed, UnaryOp};
use loc_base::NoMemory;

/// The operator's own instruction in the place of one that names the operator, where it has one.
fn specialized(general: Instruction) -> Instruction
    ensures { DoesAs general result }
{
    match general {
        Instruction::Unary {
            op: UnaryOp::Not,
            arg,
            to,
        } => Instruction::Not { arg, to },
        Instruction::Binary {
            op,
            left,
            right,
            to,
            ..
        } => match op {
            BinaryOp::Add => Instruction::Add { left, right, to },
            BinaryOp::Subtract => Instruction::Subtract { left, right, to },
            BinaryOp::And => Instruction::And { left, right, to },
            BinaryOp::Or => Instruction::Or { left, right, to },
            BinaryOp::Xor => Instruction::Xor { left, right, to },
            BinaryOp::Equal => Instruction::Equal { left, right, to },
            BinaryOp::NotEqual => Instruction::Unlike { left, right, to },
            _ => general,
        },
        _ => general,
    }
}

/// Bits of a signal.
pub(crate) fn slice(
    code: &mut Code,
    e: &Typed,
    signal: u32,
    from: u8,
    width: u8,
    cell: u32,
) -> Result<(), NoMemory>
    requires node { e.now.node ≡ node.Slice signal from width }
    requires sound { IsSound (program_of code.old) }
    requires fits { IsTrue (typed_fits code.old.design.now.signals.items e.now) }
    requires place { IsPlaceFor (program_of code.old) e.now cell }
    ensures values { OnOk result (Values (program_of code.old) (program_of code.new) e.now cell) }
    ensures sound { OnOk result (IsSound (program_of code.new)) }
{
    code.push(Instruction::Slice {
        arg: signal,
        from,
        width,
        to: cell,
    })
}

/// A unary operator, and the cell of its operand.
pub(crate) fn unary(
    code: &mut Code,
    e: &Typed,
    op: UnaryOp,
    arg: &Typed,
    cell: u32,
) -> Result<u32, NoMemory>
    requires node { e.now.node ≡ node.Unary op arg.now }
    requires sound { IsSound (program_of code.old) }
    requires fits { IsTrue (typed_fits code.old.design.now.signals.items e.now) }
    requires place { IsPlaceFor (program_of code.old) e.now cell }
    ensures awaits { IfOk result (Awaits (program_of code.old) (program_of code.new) e.now cell arg.now) }
    ensures sound { OnOk result (IsSound (program_of code.new)) }
{
    let operand = place(code, arg)?;
    let instruction = specialized(Instruction::Unary {
        op,
        arg: operand,
        to: cell,
    });
    code.push(instruction)?;
    Ok(operand)
}

/// A replication, and the cell of its part.
pub(crate) fn repeat(
    code: &mut Code,
    e: &Typed,
    times: u8,
    part: &Typed,
    cell: u32,
) -> Result<u32, NoMemory>
    requires node { e.now.node ≡ node.Repeat times part.now }
    requires sound { IsSound (program_of code.old) }
    requires fits { IsTrue (typed_fits code.old.design.now.signals.items e.now) }
    requires place { IsPlaceFor (program_of code.old) e.now cell }
    ensures awaits { IfOk result (Awaits (program_of code.old) (program_of code.new) e.now cell part.now) }
    ensures sound { OnOk result (IsSound (program_of code.new)) }
{
    let operand = place(code, part)?;
    code.push(Instruction::Repeat {
        times,
        part: operand,
        to: cell,
    })?;
    Ok(operand)
}

/// An extension or a cut, and the cell of its argument.
pub(crate) fn resize(code: &mut Code, e: &Typed, arg: &Typed, cell: u32) -> Result<u32, NoMemory>
    requires node { e.now.node ≡ node.Resize arg.now }
    requires sound { IsSound (program_of code.old) }
    requires fits { IsTrue (typed_fits code.old.design.now.signals.items e.now) }
    requires place { IsPlaceFor (program_of code.old) e.now cell }
    ensures awaits { IfOk result (Awaits (program_of code.old) (program_of code.new) e.now cell arg.now) }
    ensures sound { OnOk result (IsSound (program_of code.new)) }
{
    let operand = place(code, arg)?;
    code.push(Instruction::Resize {
        arg: operand,
        signed: arg.signed,
        to: cell,
    })?;
    Ok(operand)
}

/// A binary operator, and the cells of its operands.
pub(crate) fn binary(
    code: &mut Code,
    e: &Typed,
    op: BinaryOp,
    left: &Typed,
    right: &Typed,
    cell: u32,
) -> Result<(u32, u32), NoMemory>
    requires node { e.now.node ≡ node.Binary op left.now right.now }
    requires sound { IsSound (program_of code.old) }
    requires fits { IsTrue (typed_fits code.old.design.now.signals.items e.now) }
    requires place { IsPlaceFor (program_of code.old) e.now cell }
    ensures awaits { IfOk result (λ cells. AwaitsBoth (program_of code.old) (program_of code.new) e.now cell left.now cells.0 right.now cells.1) }
    ensures sound { OnOk result (IsSound (program_of code.new)) }
{
    let high = place(code, left)?;
    let low = place(code, right)?;
    let instruction = specialized(Instruction::Binary {
        op,
        left: high,
        left_signed: left.signed,
        right: low,
        right_signed: right.signed,
        to: cell,
    });
    code.push(instruction)?;
    Ok((high, low))
}

/// The last part of a concatenation, and the cells of what stands to its left, `left` bits wide, and of its own.
pub(crate) fn join_part(
    code: &mut Code,
    part: &Typed,
    left: u8,
    cell: u32,
) -> Result<(u32, u32), NoMemory>
    requires sound { IsSound (program_of code.old) }
    requires fits { IsTrue (typed_fits code.old.design.now.signals.items part.now) }
    requires left { IsTrue (is_width left) }
    requires own { IsTrue (is_own (program_of code.old) cell) }
    requires size { width_in (program_of code.old).widths cell ≡ left + part.now.width }
    ensures awaits { IfOk result (λ cells. AwaitsPart (program_of code.old) (program_of code.new) part.now cell left cells.0 cells.1) }
    ensures sound { OnOk result (IsSound (program_of code.new)) }
{
    let low = place(code, part)?;
    let high = code.temporary(left)?;
    code.push(Instruction::Join {
        high,
        low,
        to: cell,
    })?;
    Ok((high, low))
}
