//! The text of a set.
ghost use Rattle.std.specs.Prelude.{◌≡◌, ◌++◌, IfOk, List, OnOk, codes, decimal, map};
ghost use Rattle.std.specs.List.{flat_map};
ghost use Rattle.cycle_sim.specs.Misses.{AreValuesFor};
ghost use Rattle.cycle_sim.specs.Simulator.{IsSim, held_by};
ghost use Rattle.change_lines.specs.Lines.{AreChangeLines, ChangeLine, change_text, head_text, set_text};
ghost use Rattle.change_lines.specs.Telling.{CanBeListed, IsSameSim, told_of};

use crate::trace::Scene;
use cycle_sim::Sim;
use design_core::{Design, SetWithValues, Trace};
use loc_base::{Bytes, Items, NoMemory};
use printed_text::{push_bytes, push_number};
use std::alloc::Global;
use suspect_map::Groups;
use value_runs::Rerun;

/// What changes are told of: a design with its suspects, and traces of it.
#[derive(Clone, Copy)]
pub struct Listed<'a> {
    pub design: &'a Design,
    pub groups: &'a Groups,
    pub traces: &'a [Trace],
}

/// Appends `,` and a number for each of some.
fn push_others(text: &mut Vec<u8>, numbers: &[u32]) -> Result<(), NoMemory>
    ensures { OnOk result (text.new.items ≡ text.old.items ++ flat_map (λ n. codes "," ++ decimal n) numbers.now) }
{
    for number in numbers {
        push_bytes(text, b",")?;
        push_number(text, u64::from(*number))?;
    }
    Ok(())
}

/// Appends `set {1,2} COUNT`.
fn push_head(text: &mut Vec<u8>, members: &[u32], count: usize) -> Result<(), NoMemory>
    ensures { OnOk result (text.new.items ≡ text.old.items ++ head_text members.now count) }
{
    push_bytes(text, b"set {")?;
    if let Some((first, others)) = members.split_first() {
        push_number(text, u64::from(*first))?;
        push_others(text, others)?;
    }
    push_bytes(text, b"} ")?;
    push_number(text, count as u64)?;
    push_bytes(text, b"\n")
}

/// Appends lines.
fn push_lines(text: &mut Vec<u8>, lines: &[Bytes]) -> Result<(), NoMemory>
    ensures { OnOk result (text.new.items ≡ text.old.items ++ flat_map (λ line. line) lines.now) }
{
    for line in lines {
        push_bytes(text, line.as_slice())?;
    }
    Ok(())
}

/// The lines of the traces, one trace after another.
fn lines_of(
    alloc: Global,
    listed: &Listed<'_>,
    sim: &mut Sim,
    set: &SetWithValues,
) -> Result<Vec<Bytes>, NoMemory>
    requires sim { IsSim sim.old }
    requires can { CanBeListed listed.now (held_by sim.old) }
    requires values { AreValuesFor listed.now.design.now listed.now.traces.now set.now.values }
    ensures sim { IsSim sim.new }
    ensures same { IsSameSim (held_by sim.old) (held_by sim.new) }
    ensures lines { IfOk result (λ texts. (lines : List ChangeLine) → AreChangeLines (told_of listed.now set.now) 1 0 listed.now.traces.now lines
        → texts.items ≡ map change_text lines) }
{
    let mut lines = Vec::new(alloc);
    let mut first: usize = 0;
    for k in 0..listed.traces.len() {
        let trace = &listed.traces[k];
        let scene = Scene {
            rerun: Rerun {
                design: listed.design,
                trace,
                values: &set.values,
                first,
            },
            groups: listed.groups.as_slice(),
            members: set.members.as_slice(),
            number: k as u32 + 1,
        };
        scene.push_lines(alloc, &mut lines, sim)?;
        first += trace.cycles as usize;
    }
    Ok(lines)
}

/// The text of a set: its members with the number of its changes, and a line for each change, by trace, then cycle, then place. The values
/// are words for places of the design in each cycle of the traces. The simulator is one of the design, and has any state.
pub fn set_text(
    alloc: Global,
    listed: &Listed<'_>,
    sim: &mut Sim,
    set: &SetWithValues,
) -> Result<Bytes, NoMemory>
    requires sim { IsSim sim.old }
    requires can { CanBeListed listed.now (held_by sim.old) }
    requires values { AreValuesFor listed.now.design.now listed.now.traces.now set.now.values }
    ensures sim { IsSim sim.new }
    ensures same { IsSameSim (held_by sim.old) (held_by sim.new) }
    ensures text { IfOk result (λ text. (lines : List ChangeLine) → AreChangeLines (told_of listed.now set.now) 1 0 listed.now.traces.now lines
        → text ≡ set_text set.now.members lines) }
{
    let lines = lines_of(alloc, listed, sim, set)?;
    let mut text = Vec::new(alloc);
    push_head(&mut text, set.members.as_slice(), lines.len())?;
    push_lines(&mut text, &lines)?;
    Ok(Items::from_vec(text))
}
