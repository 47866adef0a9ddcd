//! A plain trial: the simulator, with each choice of values in turn.

ghost use Rattle.std.specs.Prelude.{All, IsTrue};
ghost use Rattle.design_core.specs.TraceFits.{IsTraceOf};

use crate::asked::Asked;
use crate::build::word;
use cycle_sim::{Sim, can_simulate, replay};
use design_core::{Design, Trace, Values};
use design_fits::is_trace_of;
use loc_base::Bits;
use parallel_replay::are_values_for;
use std::alloc::Global;
use std::test::Fail;

/// Whether traces are of a design.
#[tactic(auto, using(crate::proofs::Lists::list_rules))]
fn are_traces_of(design: &Design, traces: &[Trace]) -> bool
    ensures { IsTrue result → All (IsTraceOf design.now) traces.now }
{
    match traces.split_first() {
        Some((first, rest)) => is_trace_of(design, first) && are_traces_of(design, rest),
        None => true,
    }
}

/// Whether each trace is right with the values.
pub(super) fn is_right(alloc: Global, asked: &Asked, values: &Values) -> Result<bool, Fail> {
    let design = &asked.ready.design;
    if !can_simulate(design, &asked.ready.order) || design.outputs.len() > 1000 {
        return Err(Fail::new("the design does not fit"));
    }
    if asked.traces.len() > 1000 || !are_traces_of(design, &asked.traces) {
        return Err(Fail::new("the traces do not fit"));
    }
    if !are_values_for(design, &asked.traces, values) {
        return Err(Fail::new("the values do not fit"));
    }
    let mut sim = Sim::new(alloc, design, &asked.ready.order)?;
    Ok(replay(&mut sim, &asked.traces, values).is_none())
}

/// The places of members.
fn places_of(alloc: Global, asked: &Asked, members: &[u32]) -> Result<Vec<u32>, Fail> {
    let mut places = Vec::new(alloc);
    for member in members {
        let Some(group) = asked.groups.get((*member as usize).wrapping_sub(1)) else {
            return Err(Fail::new("no such member"));
        };
        for place in group.places.as_slice() {
            places.push(*place)?;
        }
    }
    Ok(places)
}

/// The width of each place.
fn widths_of(alloc: Global, design: &Design, places: &[u32]) -> Result<Vec<u8>, Fail> {
    let mut widths = Vec::new(alloc);
    for place in places {
        match design.places.get(*place as usize) {
            Some(place) => widths.push(place.width)?,
            None => return Err(Fail::new("no such place")),
        }
    }
    Ok(widths)
}

/// The low bits of a number as a word, and the others.
fn cut(number: u128, width: u8) -> Result<(Bits, u128), Fail> {
    if width < 1 || width > 8 {
        return Err(Fail::new("too wide"));
    }
    let low = number & (255 >> (8 - width));
    Ok((word(width, low)?, number >> width))
}

/// The rows of a number, whose bits are those of the words one after another.
fn rows_of(alloc: Global, widths: &[u8], cycles: u32, number: u128) -> Result<Vec<Bits>, Fail> {
    let mut rows = Vec::new(alloc);
    let mut left = number;
    for _cycle in 0..cycles {
        for width in widths {
            let (word, rest) = cut(left, *width)?;
            rows.push(word)?;
            left = rest;
        }
    }
    Ok(rows)
}

/// The number of cycles of some traces.
fn cycles_of(traces: &[Trace]) -> u32 {
    let mut cycles: u32 = 0;
    for trace in traces {
        cycles = cycles.saturating_add(trace.cycles);
    }
    cycles
}

/// How many choices there are for words of these widths in each of some cycles: at most 4,096.
fn choices(widths: &[u8], cycles: u32) -> Result<u128, Fail> {
    let mut bits: u32 = 0;
    for width in widths {
        bits = bits.saturating_add(u32::from(*width).saturating_mul(cycles));
    }
    if bits > 12 {
        return Err(Fail::new("too many choices"));
    }
    Ok(1 << bits)
}

/// Whether some values of the members' places make each trace right.
pub(super) fn works(alloc: Global, asked: &Asked, members: &[u32]) -> Result<bool, Fail> {
    let places = places_of(alloc, asked, members)?;
    let widths = widths_of(alloc, &asked.ready.design, &places)?;
    let cycles = cycles_of(&asked.traces);
    for number in 0..choices(&widths, cycles)? {
        let values = Values {
            places: places.to_vec(alloc)?,
            rows: rows_of(alloc, &widths, cycles, number)?,
        };
        if is_right(alloc, asked, &values)? {
            return Ok(true);
        }
    }
    Ok(false)
}
