//! The text of lines, appended to what stands.
ghost use Rattle.std.specs.Prelude.{◌≡◌, ◌<◌, ◌++◌, IfSome, OnOk, length, codes, decimal};
ghost use Rattle.std.specs.List.{flat_map};
ghost use Rattle.std.specs.Option.{option_map};
ghost use Rattle.cycle_sim.specs.Simulator.{IsSim, held_by};
ghost use Rattle.sim_lines.specs.Lines.{name_at, shown, shown_text, cycle_line, end_line, output_name, line_text};
ghost use Rattle.sim_lines.specs.Running.{AreSignals, place_of};

use cycle_sim::Sim;
use design_core::Design;
use loc_base::NoMemory;
use printed_text::{push_bytes, push_number, push_value};

/// A cycle of a trace: the trace counted from 1, the cycle from 0.
#[derive(Clone, Copy)]
pub(crate) struct Moment {
    pub(crate) trace: u32,
    pub(crate) cycle: u32,
}

/// The first cycle of a trace in which an output is not right, with the first such output. Both are counted from 0.
#[derive(Clone, Copy)]
pub(crate) struct Wrong {
    pub(crate) cycle: u32,
    pub(crate) output: u32,
}

/// Appends the name of a signal.
fn push_name(text: &mut Vec<u8>, design: &Design, signal: u32) -> Result<(), NoMemory>
    requires { signal < length design.now.signals.items }
    ensures { OnOk result (text.new.items ≡ text.old.items ++ name_at design.now.signals.items signal) }
{
    push_bytes(text, design.signals[signal as usize].path.as_bytes())
}

/// Appends the name and the value of an output.
fn push_output(text: &mut Vec<u8>, design: &Design, sim: &Sim, output: u32) -> Result<(), NoMemory>
    requires sim { IsSim sim.now }
    requires design { (held_by sim.now).design ≡ design.now }
    requires output { output < length design.now.signals.items }
    ensures { OnOk result (text.new.items ≡ text.old.items ++ shown_text (shown design.now.signals.items (held_by sim.now).values output)) }
{
    push_bytes(text, b" ")?;
    push_name(text, design, output)?;
    push_bytes(text, b"=")?;
    push_value(text, sim.value(output))?;
    Ok(())
}

/// Appends the names and values of outputs.
fn push_outputs(
    text: &mut Vec<u8>,
    design: &Design,
    sim: &Sim,
    outputs: &[u32],
) -> Result<(), NoMemory>
    requires sim { IsSim sim.now }
    requires design { (held_by sim.now).design ≡ design.now }
    requires outputs { AreSignals design.now outputs.now }
    ensures { OnOk result (text.new.items ≡ text.old.items
        ++ flat_map (λ s. shown_text (shown design.now.signals.items (held_by sim.now).values s)) outputs.now) }
{
    for output in outputs {
        push_output(text, design, sim, *output)?;
    }
    Ok(())
}

/// The line of a cycle of a trace: `T C NAME=HEX ..`.
pub(crate) fn push_cycle(
    text: &mut Vec<u8>,
    design: &Design,
    sim: &Sim,
    moment: Moment,
) -> Result<(), NoMemory>
    requires sim { IsSim sim.now }
    requires design { (held_by sim.now).design ≡ design.now }
    requires outputs { AreSignals design.now design.now.outputs.items }
    ensures { OnOk result (text.new.items ≡ text.old.items ++ line_text (cycle_line design.now moment.trace moment.cycle (held_by sim.now).values)) }
{
    push_number(text, u64::from(moment.trace))?;
    push_bytes(text, b" ")?;
    push_number(text, u64::from(moment.cycle))?;
    push_outputs(text, design, sim, &design.outputs)?;
    push_bytes(text, b"\n")?;
    Ok(())
}

/// Appends where a trace first is not right: ` miss C NAME`.
fn push_miss(text: &mut Vec<u8>, design: &Design, miss: Wrong) -> Result<(), NoMemory>
    requires outputs { AreSignals design.now design.now.outputs.items }
    requires output { miss.output < length design.now.outputs.items }
    ensures { OnOk result (text.new.items ≡ text.old.items ++ codes " miss " ++ decimal miss.cycle ++ codes " " ++ output_name design.now miss.output) }
{
    push_bytes(text, b" miss ")?;
    push_number(text, u64::from(miss.cycle))?;
    push_bytes(text, b" ")?;
    push_name(text, design, design.outputs[miss.output as usize])
}

/// The last line of a trace: `trace T ok`, or `trace T miss C NAME`.
pub(crate) fn push_end(
    text: &mut Vec<u8>,
    design: &Design,
    trace: u32,
    miss: Option<Wrong>,
) -> Result<(), NoMemory>
    requires outputs { AreSignals design.now design.now.outputs.items }
    requires output { IfSome miss (λ m. m.output < length design.now.outputs.items) }
    ensures { OnOk result (text.new.items ≡ text.old.items ++ line_text (end_line design.now trace (option_map place_of miss))) }
{
    push_bytes(text, b"trace ")?;
    push_number(text, u64::from(trace))?;
    match miss {
        None => push_bytes(text, b" ok")?,
        Some(miss) => push_miss(text, design, miss)?,
    }
    push_bytes(text, b"\n")
}
