//! The value of a sized expression, as the plain program computes it.
use crate::cases::registers;
use design_core::{Design, Driver, Part, Signal, SignalKind, Target, Typed};
use design_fits::{can_run, samples_fit};
use loc_base::{Bits, Items, Name, Span};
use plain_sim::{compute_cycle, start_words};
use std::alloc::Global;
use std::test::Fail;

/// A net of a width.
fn net(alloc: Global, width: u8) -> Result<Signal, Fail> {
    Ok(Signal {
        path: Name::new(alloc, b"y")?.ok_or("no name")?,
        width,
        signed: false,
        left: i32::from(width) - 1,
        right: 0,
        kind: SignalKind::Net,
        start: Bits::new(width, 0).ok_or("no such word")?,
    })
}

/// `assign y = e;` over registers that hold the words of the names.
fn design(alloc: Global, y: u32, e: Typed) -> Result<Design, Fail> {
    let mut signals = registers(alloc)?;
    signals.push(net(alloc, e.width)?)?;
    let mut parts = Items::new(alloc);
    parts.push(Part::Whole(y))?;
    let mut drivers = Vec::new(alloc);
    drivers.push(Driver::Cont {
        target: Target { parts },
        value: e,
        place: None,
        span: Span { from: 0, to: 0 },
    })?;
    Ok(Design {
        signals,
        drivers,
        clocked: Vec::new(alloc),
        places: Vec::new(alloc),
        inputs: Vec::new(alloc),
        outputs: Vec::new(alloc),
    })
}

/// The value of an expression where each name holds its word.
pub fn value_of(alloc: Global, e: Typed) -> Result<u128, Fail> {
    let design = design(alloc, 15, e)?;
    if !can_run(&design) || !samples_fit(&design.signals, &design.inputs, &[]) {
        return Err(Fail::new("the expression does not fit"));
    }
    if !design.places.is_empty() {
        return Err(Fail::new("there are places"));
    }
    let state = start_words(alloc, &design)?;
    match compute_cycle(alloc, &design, &[0], &[], &state, &[], &[])? {
        Some(found) => Ok(found.now.get(15).ok_or("no such net")?.value()),
        None => Err(Fail::new("no cycle")),
    }
}
