//! The cycles of a wave: without a clock a stamp each, with one two, and the clock rises in the second.
ghost use Rattle.std.specs.Prelude.{◌≡◌, ◌+◌, ◌*◌, ◌<◌, ◌++◌, true, false, length, is_some, OnOk};
ghost use Rattle.vcd_words.specs.Lines.{line_text, text_of};
ghost use Rattle.vcd_waves.specs.Lines.{entries_at, row_at, time_line, cycle_lines, lines_before, HasRows};
ghost use Rattle.vcd_waves.specs.Values.{row_of};

use crate::header::write_number;
use crate::values::{Changes, Row, write_changes};
use crate::variable::Variable;
use crate::wave::Wave;
use loc_base::{Bytes, NoMemory};

/// The entries of a cycle among those of all cycles, a number of them in each.
#[tactic(auto, using(crate::proofs::LineSteps::row_steps))]
fn entries_at<X>(entries: &[X], count: usize, cycles: u32, t: u32) -> &[X]
    requires rows { length entries.now ≡ cycles * count }
    requires cycle { t < cycles }
    ensures { result.now ≡ entries_at entries.now count t }
{
    let from = t as usize * count;
    &entries[from..from + count]
}

/// The values of a cycle.
fn row_at<'a>(wave: &Wave<'a>, t: u32) -> Row<'a>
    requires rows { HasRows wave.now }
    requires cycle { t < wave.now.trace.now.cycles }
    ensures { row_of result ≡ row_at wave.now t }
{
    let trace = wave.trace;
    let design = wave.design;
    Row {
        samples: entries_at(&trace.inputs, design.inputs.len(), trace.cycles, t),
        expected: entries_at(&trace.expected, design.outputs.len(), trace.cycles, t),
        chosen: entries_at(wave.chosen, wave.places.len(), trace.cycles, t),
    }
}

/// Appends the line of a time.
#[tactic(auto, using(crate::proofs::LineSteps::line_steps))]
fn write_time(text: &mut Bytes, time: u64) -> Result<(), NoMemory>
    ensures { OnOk result (text.new ≡ text.old ++ line_text (time_line time)) }
{
    text.push(b'#')?;
    write_number(text, time)?;
    text.push(b'\n')?;
    Ok(())
}

/// Appends a cycle of a design without a clock: one stamp.
#[tactic(auto, using(crate::proofs::LineSteps::line_steps))]
fn write_stamp(
    text: &mut Bytes,
    variables: &[Variable],
    row: &Row<'_>,
    t: u32,
) -> Result<(), NoMemory>
    ensures { OnOk result (text.new ≡ text.old ++ text_of (cycle_lines false variables.now (row_of row.now) t)) }
{
    write_time(text, u64::from(t))?;
    write_changes(text, variables, &Changes::Row(*row))?;
    Ok(())
}

/// Appends a cycle of a design with a clock: two stamps.
fn write_stamps(
    text: &mut Bytes,
    variables: &[Variable],
    row: &Row<'_>,
    t: u32,
) -> Result<(), NoMemory>
    ensures { OnOk result (text.new ≡ text.old ++ text_of (cycle_lines true variables.now (row_of row.now) t)) }
{
    write_time(text, 10 * u64::from(t))?;
    write_changes(text, variables, &Changes::Clock(false))?;
    write_changes(text, variables, &Changes::Row(*row))?;
    write_time(text, 10 * u64::from(t) + 5)?;
    write_changes(text, variables, &Changes::Clock(true))?;
    Ok(())
}

/// Appends a cycle.
fn write_cycle(
    text: &mut Bytes,
    wave: &Wave<'_>,
    variables: &[Variable],
    t: u32,
) -> Result<(), NoMemory>
    requires rows { HasRows wave.now }
    requires cycle { t < wave.now.trace.now.cycles }
    ensures { OnOk result (text.new ≡ text.old
        ++ text_of (cycle_lines (is_some wave.now.clock) variables.now (row_at wave.now t) t)) }
{
    let row = row_at(wave, t);
    if wave.clock.is_some() {
        write_stamps(text, variables, &row, t)?;
        return Ok(());
    }
    write_stamp(text, variables, &row, t)?;
    Ok(())
}

/// Appends all cycles.
#[tactic(auto, using(crate::proofs::LineSteps::cycle_steps))]
pub(crate) fn write_cycles(
    text: &mut Bytes,
    wave: &Wave<'_>,
    variables: &[Variable],
) -> Result<(), NoMemory>
    requires { HasRows wave.now }
    ensures { OnOk result (text.new ≡ text.old ++ text_of (lines_before wave.now variables.now wave.now.trace.now.cycles)) }
{
    for t in 0..wave.trace.cycles {
        write_cycle(text, wave, variables, t)?;
    }
    Ok(())
}
