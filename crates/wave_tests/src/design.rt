//! Designs without drivers, for waves and dumps ask for signals and places alone.
use design_core::{Checked, Design, Place, PlaceKind, Signal, SignalKind, Trace};
use loc_base::{Bits, Name, NoMemory};
use std::alloc::Global;
use std::process::Abort;
use std::test::Fail;

pub fn name(rt: &impl Abort, alloc: Global, text: &str) -> Result<Name, Fail> {
    let name = Name::new(alloc, text.as_bytes())?;
    Ok(name.expect(rt, "a name"))
}

pub fn word(rt: &impl Abort, width: u8, value: u128) -> Bits {
    Bits::new(width, value).expect(rt, "a word")
}

/// A design without signals.
pub fn empty(alloc: Global) -> Design {
    Design {
        signals: Vec::new(alloc),
        drivers: Vec::new(alloc),
        clocked: Vec::new(alloc),
        places: Vec::new(alloc),
        inputs: Vec::new(alloc),
        outputs: Vec::new(alloc),
    }
}

/// Adds a signal.
pub fn add_signal(
    design: &mut Design,
    path: Name,
    width: u8,
    kind: SignalKind,
) -> Result<(), NoMemory> {
    design.signals.push(Signal {
        path,
        width,
        signed: false,
        left: i32::from(width) - 1,
        right: 0,
        kind,
        start: Bits::zero(1),
    })?;
    Ok(())
}

/// Adds a place of a width.
pub fn add_place(design: &mut Design, module: Name, path: Name, width: u8) -> Result<(), NoMemory> {
    design.places.push(Place {
        kind: PlaceKind::Assign,
        width,
        site: 0,
        home: 0,
        copy: 0,
        line: 1,
        module,
        path,
        signal: 0,
    })?;
    Ok(())
}

/// A trace of so many cycles without samples and expected values.
pub fn trace(alloc: Global, cycles: u32) -> Trace {
    Trace {
        cycles,
        inputs: Vec::new(alloc),
        expected: Vec::new(alloc),
    }
}

/// Adds what is expected of an output.
pub fn expect(trace: &mut Trace, value: Bits, mask: Bits) -> Result<(), NoMemory> {
    trace.expected.push(Checked { value, mask })?;
    Ok(())
}
