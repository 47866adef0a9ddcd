//! Designs of texts, traces of them, and suspects.

ghost use Rattle.std.specs.Prelude.{IfOk};
ghost use Rattle.front_end.specs.Means.{IsReady};

use bit_circuit::{Circuit, blast};
use design_core::{Checked, Design, Trace};
use front_end::{Format, FrontEnd, Ordered, ReadBy};
use loc_base::{Bits, Items, Name};
use plain_values::width_at;
use std::alloc::Global;
use std::test::Fail;
use suspect_map::{Group, Groups};
use v_synth::word_net;
use verilog_front_end::Verilog;

fn name(alloc: Global, text: &str) -> Result<Name, Fail> {
    match Name::new(alloc, text.as_bytes())? {
        Some(name) => Ok(name),
        None => Err(Fail::new("no name")),
    }
}

/// The design of the module `m` of a text, with the clock `clk`.
pub(super) fn read(alloc: Global, text: &str) -> Result<Ordered, Fail>
    ensures { IfOk result (λ o. IsReady o.design o.order) }
{
    let top = name(alloc, "m")?;
    let clk = name(alloc, "clk")?;
    let clock = Some(&clk);
    let by = ReadBy {
        format: Format::Verilog,
        top: &top,
        clock,
    };
    match Verilog.read(alloc, text.as_bytes(), &by) {
        Ok(ready) => Ok(ready),
        Err(_) => Err(Fail::new("no design")),
    }
}

/// The circuit of a design.
pub(super) fn circuit(alloc: Global, ready: &Ordered) -> Result<Circuit, Fail>
    requires { IsReady ready.now.design ready.now.order }
{
    if ready.design.signals.len() > 1_048_576 {
        return Err(Fail::new("too many signals"));
    }
    let net = word_net(alloc, &ready.design, &ready.order)?;
    match blast(alloc, &net) {
        Ok(circuit) => Ok(circuit),
        Err(_) => Err(Fail::new("no circuit")),
    }
}

/// A word of a width.
pub(super) fn word(width: u8, value: u128) -> Result<Bits, Fail> {
    match Bits::new(width, value) {
        Some(word) => Ok(word),
        None => Err(Fail::new("no such word")),
    }
}

/// The value of a digit from `0` to `f`.
fn digit(letter: u8) -> Option<u128> {
    match letter {
        b'0'..=b'9' => Some(u128::from(letter - b'0')),
        b'a'..=b'f' => Some(u128::from(letter - b'a') + 10),
        _ => None,
    }
}

/// The sample of an input, by a digit.
fn sample(width: u8, letter: u8) -> Result<Bits, Fail> {
    match digit(letter) {
        Some(value) => word(width, value),
        None => Err(Fail::new("no digit")),
    }
}

/// What is expected of an output: a digit, or anything else where it is not checked.
fn checked(width: u8, letter: u8) -> Result<Checked, Fail> {
    if width < 1 || width > 4 {
        return Err(Fail::new("too wide"));
    }
    let all = 15 >> (4 - width);
    match digit(letter) {
        Some(value) => Ok(Checked {
            value: word(width, value)?,
            mask: word(width, all)?,
        }),
        None => Ok(Checked {
            value: word(width, 0)?,
            mask: word(width, 0)?,
        }),
    }
}

/// The width of a signal among some.
fn width_of(design: &Design, signals: &[u32], at: usize) -> u8 {
    match signals.get(at) {
        Some(signal) => width_at(&design.signals, *signal as usize),
        None => 0,
    }
}

/// A trace of a cycle for each text: a letter for each input, then one for each output.
fn trace(alloc: Global, design: &Design, cycles: &[&str]) -> Result<Trace, Fail> {
    let mut trace = Trace {
        cycles: 0,
        inputs: Vec::new(alloc),
        expected: Vec::new(alloc),
    };
    let inputs = design.inputs.len();
    for text in cycles {
        for (i, letter) in text.as_bytes().iter().enumerate() {
            if i < inputs {
                let width = width_of(design, &design.inputs, i);
                trace.inputs.push(sample(width, *letter)?)?;
            } else {
                let width = width_of(design, &design.outputs, i - inputs);
                trace.expected.push(checked(width, *letter)?)?;
            }
        }
        trace.cycles = trace.cycles.wrapping_add(1);
    }
    Ok(trace)
}

/// Traces, each by its cycles.
pub(super) fn traces(
    alloc: Global,
    design: &Design,
    texts: &[&[&str]],
) -> Result<Vec<Trace>, Fail> {
    let mut traces = Vec::new(alloc);
    for cycles in texts {
        traces.push(trace(alloc, design, *cycles)?)?;
    }
    Ok(traces)
}

/// A suspect for each list of places.
pub(super) fn suspects(alloc: Global, places: &[&[u32]]) -> Result<Groups, Fail> {
    let mut groups = Items::new(alloc);
    for own in places {
        groups.push(Group {
            kind: name(alloc, "suspect")?,
            label: name(alloc, "m")?,
            places: Items::copy_of(alloc, *own)?,
        })?;
    }
    Ok(groups)
}
