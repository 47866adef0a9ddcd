//! The value of an expression, and conditions as jumps.

ghost use Rattle.std.specs.Prelude.{◌≡◌, ◌≤◌, true, false, IsTrue, IfOk, OnOk, length, ◌<◌};
ghost use Rattle.std.specs.List.{list_all};
ghost use Rattle.design_core.specs.WellFormed.{typed_fits};
ghost use Rattle.plain_values.specs.Evaluate.{parts_sum};
ghost use Rattle.cycle_code.specs.Program.{program_of, Grown};
ghost use Rattle.cycle_code.specs.Cells.{width_in};
ghost use Rattle.cycle_code.specs.Fitting.{is_own, IsSound};
ghost use Rattle.cycle_compile.specs.Compiling.{is_leaf, IsPlaceFor, Values, Decides};
ghost use Rattle.cycle_compile.specs.Computing.{Fills, Joins};

use crate::jump::{here, jump};
use crate::operator::{binary, join_part, repeat, resize, slice, unary};
use crate::pair::join_pair;
use crate::test::{is_zero, test_equal, test_value};
use crate::widening::bare;
use cycle_code::{Code, Instruction};
use design_core::{BinaryOp, Node, Typed, UnaryOp};
use loc_base::NoMemory;

/// The cell in which the value of an expression will be found: that of a constant or of a whole signal has it already, and any other is new.
pub fn place(code: &mut Code, e: &Typed) -> Result<u32, NoMemory>
    requires sound { IsSound (program_of code.old) }
    requires fits { IsTrue (typed_fits code.old.design.now.signals.items e.now) }
    ensures place { IfOk result (IsPlaceFor (program_of code.new) e.now) }
    ensures fresh { IfOk result (λ cell. is_leaf e.now.node ≡ false → length (program_of code.old).widths ≤ cell) }
    ensures sound { OnOk result (IsSound (program_of code.new)) }
    ensures grown { OnOk result (Grown (program_of code.old) (program_of code.new)) }
    ensures instructions { OnOk result ((program_of code.new).instructions ≡ (program_of code.old).instructions) }
{
    match &e.node {
        Node::Const(word) => code.constant(*word),
        Node::Whole(signal) => Ok(*signal),
        _ => code.temporary(e.width),
    }
}

/// Pushes what leaves the value of an expression in a cell that `place` gave for it.
#[cycle(computing)]
pub fn compute<'a>(code: &mut Code<'a>, e: &'a Typed, cell: u32) -> Result<(), NoMemory>
    requires sound { IsSound (program_of code.old) }
    requires fits { IsTrue (typed_fits code.old.design.now.signals.items e.now) }
    requires place { IsPlaceFor (program_of code.old) e.now cell }
    ensures values { OnOk result (Values (program_of code.old) (program_of code.new) e.now cell) }
    ensures sound { OnOk result (IsSound (program_of code.new)) }
{
    match &e.node {
        Node::Const(_) | Node::Whole(_) => Ok(()),
        Node::Slice {
            signal,
            from,
            width,
        } => slice(code, e, *signal, *from, *width, cell),
        Node::Unary { op, arg } => {
            let operand = unary(code, e, *op, arg, cell)?;
            compute(code, arg, operand)
        }
        Node::Binary { op, left, right } => {
            let (high, low) = binary(code, e, *op, left, right, cell)?;
            compute(code, right, low)?;
            compute(code, left, high)
        }
        Node::Repeat { times, part } => {
            let operand = repeat(code, e, *times, part, cell)?;
            compute(code, part, operand)
        }
        Node::Resize(arg) => {
            let operand = resize(code, e, arg, cell)?;
            compute(code, arg, operand)
        }
        Node::Choose { cond, yes, no } => {
            let next = here(code)?;
            fill(code, no, cell)?;
            let otherwise = here(code)?;
            jump(code, next)?;
            fill(code, yes, cell)?;
            let then = here(code)?;
            decide(code, cond, then, otherwise)
        }
        Node::Join(parts) => join(code, parts, e.width, cell),
        _ => evaluate(code, e, cell),
    }
}

/// Pushes what leaves the value of a concatenation in one of the code's own cells: each part is joined to what stands to its left.
#[cycle(computing)]
fn join<'a>(code: &mut Code<'a>, parts: &'a [Typed], width: u8, cell: u32) -> Result<(), NoMemory>
    requires sound { IsSound (program_of code.old) }
    requires fits { IsTrue (list_all (typed_fits code.old.design.now.signals.items) parts.now) }
    requires some { 0 < length parts.now }
    requires sum { parts_sum parts.now ≡ width }
    requires most { width ≤ 128 }
    requires own { IsTrue (is_own (program_of code.old) cell) }
    requires size { width_in (program_of code.old).widths cell ≡ width }
    ensures joins { OnOk result (Joins (program_of code.old) (program_of code.new) parts.now cell) }
    ensures sound { OnOk result (IsSound (program_of code.new)) }
{
    let mut to = cell;
    let mut left = width;
    let mut count = parts.len() - 1;
    while count > 1 {
        let part = &parts[count];
        left -= part.width;
        let (high, low) = join_part(code, part, left, to)?;
        compute(code, part, low)?;
        to = high;
        count -= 1;
    }
    if count == 0 {
        return fill(code, &parts[0], to);
    }
    let (first, second) = (&parts[0], &parts[1]);
    let (high, low) = join_pair(code, first, second, to)?;
    compute(code, second, low)?;
    compute(code, first, high)
}

/// Pushes what leaves the value of an expression in one of the code's own cells.
#[cycle(computing)]
fn fill<'a>(code: &mut Code<'a>, e: &'a Typed, cell: u32) -> Result<(), NoMemory>
    requires sound { IsSound (program_of code.old) }
    requires fits { IsTrue (typed_fits code.old.design.now.signals.items e.now) }
    requires own { IsTrue (is_own (program_of code.old) cell) }
    requires width { width_in (program_of code.old).widths cell ≡ e.now.width }
    ensures fills { OnOk result (Fills (program_of code.old) (program_of code.new) e.now cell) }
    ensures sound { OnOk result (IsSound (program_of code.new)) }
{
    match &e.node {
        Node::Const(_) | Node::Whole(_) => copy(code, e, cell),
        _ => compute(code, e, cell),
    }
}

/// Pushes a copy of what stands in a cell already.
fn copy(code: &mut Code, e: &Typed, cell: u32) -> Result<(), NoMemory>
    requires sound { IsSound (program_of code.old) }
    requires fits { IsTrue (typed_fits code.old.design.now.signals.items e.now) }
    requires leaf { is_leaf e.now.node ≡ true }
    requires own { IsTrue (is_own (program_of code.old) cell) }
    requires width { width_in (program_of code.old).widths cell ≡ e.now.width }
    ensures fills { OnOk result (Fills (program_of code.old) (program_of code.new) e.now cell) }
    ensures sound { OnOk result (IsSound (program_of code.new)) }
{
    let from = place(code, e)?;
    code.push(Instruction::Move { from, to: cell })
}

/// Pushes what goes on at the number `yes` where the value of an expression isn't 0, and at `no` where it is. The right operand of
/// `&&` and `||` is computed only where the left one doesn't decide, and operands of `==` and `!=` without unsigned widenings.
#[cycle(computing)]
pub fn decide<'a>(code: &mut Code<'a>, e: &'a Typed, yes: u32, no: u32) -> Result<(), NoMemory>
    requires sound { IsSound (program_of code.old) }
    requires fits { IsTrue (typed_fits code.old.design.now.signals.items e.now) }
    requires yes { yes ≤ length (program_of code.old).instructions }
    requires no { no ≤ length (program_of code.old).instructions }
    ensures decides { OnOk result (Decides (program_of code.old) (program_of code.new) e.now yes no) }
    ensures sound { OnOk result (IsSound (program_of code.new)) }
{
    match &e.node {
        Node::Resize(arg) if !arg.signed && arg.width <= e.width => decide(code, arg, yes, no),
        Node::Unary { op, arg } => match op {
            UnaryOp::LogicalNot => decide(code, arg, no, yes),
            _ => {
                let cond = test_value(code, e, yes, no)?;
                compute(code, e, cond)
            }
        },
        Node::Binary { op, left, right } => match op {
            BinaryOp::LogicalAnd => {
                decide(code, right, yes, no)?;
                let then = here(code)?;
                decide(code, left, then, no)
            }
            BinaryOp::LogicalOr => {
                decide(code, right, yes, no)?;
                let otherwise = here(code)?;
                decide(code, left, yes, otherwise)
            }
            BinaryOp::Equal if is_zero(right) => decide(code, left, no, yes),
            BinaryOp::NotEqual if is_zero(right) => decide(code, left, yes, no),
            BinaryOp::Equal => {
                let (left, right) = (bare(left), bare(right));
                let (high, low) = test_equal(code, left, right, yes, no)?;
                compute(code, right, low)?;
                compute(code, left, high)
            }
            BinaryOp::NotEqual => {
                let (left, right) = (bare(left), bare(right));
                let (high, low) = test_equal(code, left, right, no, yes)?;
                compute(code, right, low)?;
                compute(code, left, high)
            }
            _ => {
                let cond = test_value(code, e, yes, no)?;
                compute(code, e, cond)
            }
        },
        _ => {
            let cond = test_value(code, e, yes, no)?;
            compute(code, e, cond)
        }
    }
}

/// Pushes one instruction that has the whole expression.
fn evaluate<'a>(code: &mut Code<'a>, e: &'a Typed, cell: u32) -> Result<(), NoMemory>
    requires sound { IsSound (program_of code.old) }
    requires fits { IsTrue (typed_fits code.old.design.now.signals.items e.now) }
    requires place { IsPlaceFor (program_of code.old) e.now cell }
    requires inner { is_leaf e.now.node ≡ false }
    ensures values { OnOk result (Values (program_of code.old) (program_of code.new) e.now cell) }
    ensures sound { OnOk result (IsSound (program_of code.new)) }
{
    let tree = code.push_tree(e)?;
    code.push(Instruction::Value { tree, to: cell })
}
