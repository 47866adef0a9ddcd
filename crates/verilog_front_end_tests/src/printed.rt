//! What is printed of a text: its design, a line for each signal and each place, and one each for the drivers, the clocked blocks, the
//! ports and the order.
use design_core::{Clocked, Design, Driver, Place, PlaceKind, Signal, SignalKind};
use front_end::{Format, FrontEnd, ReadBy};
use loc_base::{Name, NoMemory};
use printed_text::{push_bytes, push_number, push_value};
use std::alloc::Global;
use std::test::Fail;
use verilog_front_end::Verilog;

fn push_word(text: &mut Vec<u8>, word: &[u8]) -> Result<(), NoMemory> {
    push_bytes(text, b" ")?;
    push_bytes(text, word)
}

fn push_numbers(text: &mut Vec<u8>, numbers: &[u32]) -> Result<(), NoMemory> {
    for number in numbers {
        push_bytes(text, b" ")?;
        push_number(text, u64::from(*number))?;
    }
    Ok(())
}

fn signal_kind(kind: SignalKind) -> &'static [u8] {
    match kind {
        SignalKind::Input => b"input",
        SignalKind::Net => b"net",
        SignalKind::Reg => b"reg",
    }
}

/// A signal: its path and kind, its width and range without signs, whether it is signed, and its start value.
fn push_signal(text: &mut Vec<u8>, signal: &Signal) -> Result<(), NoMemory> {
    let (left, right) = (signal.left.unsigned_abs(), signal.right.unsigned_abs());
    push_word(text, signal.path.as_bytes())?;
    push_word(text, signal_kind(signal.kind))?;
    push_numbers(text, &[u32::from(signal.width), left, right])?;
    if signal.signed {
        push_word(text, b"signed")?;
    }
    push_word(text, b"")?;
    push_value(text, signal.start)?;
    push_bytes(text, b"\n")
}

fn place_kind(kind: PlaceKind) -> &'static [u8] {
    match kind {
        PlaceKind::Assign => b"assign",
        PlaceKind::Step => b"step",
        PlaceKind::Gate => b"gate",
        PlaceKind::PortOut => b"output",
        PlaceKind::And => b"and",
        PlaceKind::Cond => b"condition",
        PlaceKind::PortIn => b"input",
    }
}

/// A place: its kind, module and path; its width, the numbers of its first token and of its item's, its line, the least place of its
/// copy, and the first signal of its left side.
fn push_place(text: &mut Vec<u8>, place: &Place) -> Result<(), NoMemory> {
    push_word(text, place_kind(place.kind))?;
    push_word(text, place.module.as_bytes())?;
    push_word(text, place.path.as_bytes())?;
    push_numbers(text, &[u32::from(place.width), place.site, place.home])?;
    push_numbers(text, &[place.line, place.copy, place.signal])?;
    push_bytes(text, b"\n")
}

/// A driver: its place, or what it is.
fn push_driver(text: &mut Vec<u8>, driver: &Driver) -> Result<(), NoMemory> {
    match driver {
        Driver::Cont {
            place: Some(place),
            ..
        } => push_numbers(text, &[*place]),
        Driver::Cont { place: None, .. } => push_word(text, b"input"),
        Driver::Comb { .. } => push_word(text, b"block"),
    }
}

/// A clocked block: the signal of its reset and the level at which it is active.
fn push_clocked(text: &mut Vec<u8>, block: &Clocked) -> Result<(), NoMemory> {
    match &block.reset {
        Some(reset) => push_numbers(text, &[reset.signal, u32::from(reset.level)]),
        None => push_word(text, b"plain"),
    }
}

fn push_list(text: &mut Vec<u8>, name: &[u8], numbers: &[u32]) -> Result<(), NoMemory> {
    push_word(text, name)?;
    push_numbers(text, numbers)?;
    push_bytes(text, b"\n")
}

fn push_blocks(text: &mut Vec<u8>, design: &Design) -> Result<(), NoMemory> {
    push_word(text, b"drivers")?;
    for driver in &design.drivers {
        push_driver(text, driver)?;
    }
    push_bytes(text, b"\n clocked")?;
    for block in &design.clocked {
        push_clocked(text, block)?;
    }
    push_bytes(text, b"\n")
}

fn push_design(text: &mut Vec<u8>, design: &Design) -> Result<(), NoMemory> {
    for signal in &design.signals {
        push_signal(text, signal)?;
    }
    for place in &design.places {
        push_place(text, place)?;
    }
    push_blocks(text, design)?;
    push_list(text, b"inputs", design.inputs.as_slice())?;
    push_list(text, b"outputs", design.outputs.as_slice())
}

/// What is printed of a text with the top `top`, where `clk` is the clock or there is none.
pub fn printed(alloc: Global, text: &[u8], is_clocked: bool) -> Result<Vec<u8>, Fail> {
    let top = Name::new(alloc, b"top")?.unwrap();
    let name = Name::new(alloc, b"clk")?.unwrap();
    let clock = if is_clocked { Some(&name) } else { None };
    let mut lines = Vec::new(alloc);
    let by = ReadBy {
        format: Format::Verilog,
        top: &top,
        clock,
    };
    match Verilog.read(alloc, text, &by) {
        Ok(found) => {
            push_design(&mut lines, &found.design)?;
            push_list(&mut lines, b"order", found.order.as_slice())?;
        }
        Err(_) => return Err(Fail::new("no design")),
    }
    Ok(lines)
}
