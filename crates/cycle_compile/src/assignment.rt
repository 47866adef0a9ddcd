//! Left sides.

ghost use Rattle.std.specs.Prelude.{◌≡◌, ◌+◌, ◌<◌, if◌then◌else◌, IsTrue, IfOk, OnOk};
ghost use Rattle.std.specs.List.{list_all};
ghost use Rattle.design_core.specs.WellFormed.{typed_fits, part_fits};
ghost use Rattle.cycle_code.specs.Program.{program_of, count_of};
ghost use Rattle.cycle_code.specs.Fitting.{is_cell, is_place, IsSound};
ghost use Rattle.cycle_compile.specs.Carrying.{Carries, assigned_left, set_left, whole_of};

use crate::expression::{compute, place};
use crate::widening::bare;
use cycle_code::{Code, Instruction};
use design_core::{Part, Target, Typed};
use loc_base::NoMemory;

/// Pushes what a procedural assignment does: the value of an expression is computed, and what the place of that number assigns
/// for it is put into the left side. That extends by zeros, so unsigned widenings around the expression are left out.
pub(crate) fn assign<'a>(
    code: &mut Code<'a>,
    number: u32,
    target: &'a Target,
    value: &'a Typed,
    later: bool,
) -> Result<(), NoMemory>
    requires sound { IsSound (program_of code.old) }
    requires place { IsTrue (is_place (program_of code.old) number) }
    requires parts { IsTrue (list_all (part_fits code.old.design.now.signals.items) target.now.parts) }
    requires value { IsTrue (typed_fits code.old.design.now.signals.items value.now) }
    ensures carries { OnOk result (Carries (program_of code.old) (program_of code.new) (assigned_left number target.now.parts value.now later)) }
    ensures sound { OnOk result (IsSound (program_of code.new)) }
{
    let value = bare(value);
    let cell = place(code, value)?;
    store(code, number, target, cell, later)?;
    compute(code, value, cell)
}

/// Pushes what puts into a left side what a place assigns for the word of a cell.
fn store<'a>(
    code: &mut Code<'a>,
    number: u32,
    target: &'a Target,
    cell: u32,
    later: bool,
) -> Result<(), NoMemory>
    requires sound { IsSound (program_of code.old) }
    requires place { IsTrue (is_place (program_of code.old) number) }
    requires cell { IsTrue (is_cell (program_of code.old) cell) }
    requires parts { IsTrue (list_all (part_fits code.old.design.now.signals.items) target.now.parts) }
    ensures carries { OnOk result (Carries (program_of code.old) (program_of code.new) (set_left number target.now.parts cell later)) }
    ensures sound { OnOk result (IsSound (program_of code.new)) }
{
    if let Some(signal) = whole_of(&target.parts) {
        let to = word_of(code, signal, later)?;
        return code.push(Instruction::Set {
            place: number,
            value: cell,
            to,
        });
    }
    let target = code.push_target(target)?;
    code.push(Instruction::Assign {
        target,
        place: number,
        value: cell,
        later,
    })
}

/// The signal that a left side of one whole signal names.
pub fn whole_of(parts: &[Part]) -> Option<u32>
    ensures { result ≡ whole_of parts.now }
{
    match parts {
        [Part::Whole(signal)] => Some(*signal),
        _ => None,
    }
}

/// The cell of a signal's word: of its later update where `later` is true, else of the one that is read. `NoMemory` past the
/// greatest `u32`; memory ends long before.
fn word_of(code: &Code, signal: u32, later: bool) -> Result<u32, NoMemory>
    requires sound { IsSound (program_of code.now) }
    requires signal { signal < count_of (program_of code.now) }
    ensures { IfOk result (λ cell. cell ≡ (if later then count_of (program_of code.now) + signal else signal)) }
{
    if !later {
        return Ok(signal);
    }
    match u32::try_from(code.design.signals.len() + signal as usize) {
        Ok(cell) => Ok(cell),
        Err(_) => Err(NoMemory),
    }
}
