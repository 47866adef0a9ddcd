//! Jumps to numbers that are known.

ghost use Rattle.std.specs.Prelude.{◌≡◌, ◌≤◌, IfOk, OnOk, length};
ghost use Rattle.cycle_code.specs.Program.{program_of};
ghost use Rattle.cycle_code.specs.Fitting.{IsSound};
ghost use Rattle.cycle_compile.specs.Carrying.{Jumps};

use cycle_code::{Code, Instruction};
use loc_base::NoMemory;

/// The number at which a run of what was pushed begins. `NoMemory` past the greatest `u32`; memory ends long before.
pub(crate) fn here(code: &Code) -> Result<u32, NoMemory>
    ensures { IfOk result (λ number. number ≡ length (program_of code.now).instructions) }
{
    match u32::try_from(code.len()) {
        Ok(number) => Ok(number),
        Err(_) => Err(NoMemory),
    }
}

/// Pushes a jump to a number, unless the run goes on there anyway.
pub(crate) fn jump(code: &mut Code, target: u32) -> Result<(), NoMemory>
    requires sound { IsSound (program_of code.old) }
    requires target { target ≤ length (program_of code.old).instructions }
    ensures jumps { OnOk result (Jumps (program_of code.old) (program_of code.new) target) }
    ensures sound { OnOk result (IsSound (program_of code.new)) }
{
    if target as usize == code.len() {
        return Ok(());
    }
    code.push(Instruction::Jump { next: target })
}
