//! Branches: jumps to one of two numbers, by what cells hold.

ghost use Rattle.std.specs.Prelude.{◌≤◌, ◌==◌, IsTrue, OnOk, length};
ghost use Rattle.design_core.specs.Operator.{is_true};
ghost use Rattle.cycle_code.specs.Program.{program_of};
ghost use Rattle.cycle_code.specs.Effects.{held_in};
ghost use Rattle.cycle_code.specs.Fitting.{is_cell, IsSound};
ghost use Rattle.cycle_compile.specs.Computing.{Branches};

use crate::jump::jump;
use cycle_code::{Code, Instruction};
use loc_base::NoMemory;

/// Goes on at `yes` where a cell isn't 0, and at `no` where it is.
pub(crate) fn branch_if(code: &mut Code, cond: u32, yes: u32, no: u32) -> Result<(), NoMemory>
    requires sound { IsSound (program_of code.old) }
    requires cond { IsTrue (is_cell (program_of code.old) cond) }
    requires yes { yes ≤ length (program_of code.old).instructions }
    requires no { no ≤ length (program_of code.old).instructions }
    ensures branches { OnOk result (Branches (program_of code.old) (program_of code.new) (λ p V. is_true (held_in p V cond)) yes no) }
    ensures sound { OnOk result (IsSound (program_of code.new)) }
{
    if no as usize == code.len() {
        return code.push(Instruction::JumpIf { cond, next: yes });
    }
    jump(code, yes)?;
    code.push(Instruction::JumpUnless { cond, next: no })
}

/// Goes on at `yes` where two cells hold one number, and at `no` where they hold different ones.
pub(crate) fn branch_equal(
    code: &mut Code,
    left: u32,
    right: u32,
    yes: u32,
    no: u32,
) -> Result<(), NoMemory>
    requires sound { IsSound (program_of code.old) }
    requires left { IsTrue (is_cell (program_of code.old) left) }
    requires right { IsTrue (is_cell (program_of code.old) right) }
    requires yes { yes ≤ length (program_of code.old).instructions }
    requires no { no ≤ length (program_of code.old).instructions }
    ensures branches { OnOk result (Branches (program_of code.old) (program_of code.new) (λ p V. held_in p V left == held_in p V right) yes no) }
    ensures sound { OnOk result (IsSound (program_of code.new)) }
{
    if no as usize == code.len() {
        return code.push(Instruction::JumpEqual {
            left,
            right,
            next: yes,
        });
    }
    jump(code, yes)?;
    code.push(Instruction::JumpUnlike {
        left,
        right,
        next: no,
    })
}
