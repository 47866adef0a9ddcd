//! Designs that have ports and no drivers: a dump is read by the ports alone.
use crate::failure::Failure;
use design_core::{Design, Signal, SignalKind};
use loc_base::{Bits, Name};
use std::alloc::Global;

/// A design without signals.
fn empty(alloc: Global) -> Design {
    Design {
        signals: Vec::new(alloc),
        drivers: Vec::new(alloc),
        clocked: Vec::new(alloc),
        places: Vec::new(alloc),
        inputs: Vec::new(alloc),
        outputs: Vec::new(alloc),
    }
}

/// Adds a signal, and gives its number.
fn add_signal(alloc: Global, design: &mut Design, name: &str, width: u8) -> Result<u32, Failure> {
    let Some(path) = Name::new(alloc, name.as_bytes())? else {
        return Err(Failure::Words);
    };
    let Ok(number) = u32::try_from(design.signals.len()) else {
        return Err(Failure::Words);
    };
    design.signals.push(Signal {
        path,
        width,
        signed: false,
        left: i32::from(width) - 1,
        right: 0,
        kind: SignalKind::Input,
        start: Bits::zero(1),
    })?;
    Ok(number)
}

/// Adds an input or an output.
fn add_port(alloc: Global, design: &mut Design, port: &[String]) -> Result<(), Failure> {
    let [direction, name, width] = port else {
        return Err(Failure::Words);
    };
    let Ok(width) = width.parse::<u8>() else {
        return Err(Failure::Words);
    };
    let number = add_signal(alloc, design, name, width)?;
    match direction.as_str() {
        "in" => design.inputs.push(number)?,
        "out" => design.outputs.push(number)?,
        _ => return Err(Failure::Words),
    }
    Ok(())
}

/// The design whose first signal is the clock, if there is one, and whose ports are given by three words each.
pub fn design_of(alloc: Global, clock: &str, ports: &[String]) -> Result<Design, Failure> {
    let mut design = empty(alloc);
    if clock != "-" {
        let _number = add_signal(alloc, &mut design, clock, 1)?;
    }
    for port in ports.chunks(3) {
        add_port(alloc, &mut design, port)?;
    }
    Ok(design)
}

/// The name of the clock, if there is one.
pub fn clock_of(alloc: Global, clock: &str) -> Result<Option<Name>, Failure> {
    if clock == "-" {
        return Ok(None);
    }
    match Name::new(alloc, clock.as_bytes())? {
        Some(name) => Ok(Some(name)),
        None => Err(Failure::Words),
    }
}
