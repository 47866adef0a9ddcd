//! `bench_tool dump CLOCK SHOWN [in|out NAME WIDTH]..`: reads a value change dump from standard input as one of a design with
//! these ports, and prints its trace or why it holds none.
//!
//! CLOCK is the clock's name, or `-` where there is none. SHOWN is `rows` for a line a cycle, `count` for their number
//! alone, `time` for the milliseconds too, on standard error, or `wave` for the trace as a dump of its own, with the
//! milliseconds of its writing on standard error.
mod design;

ghost use Rattle.vcd_traces.specs.Ports.{HasPorts};

use crate::dump::design::{clock_of, design_of};
use crate::failure::Failure;
use crate::input::input;
use design_core::{Design, Trace};
use loc_base::Name;
use std::alloc::Global;
use std::io::{self, BufWriter, Write};
use std::time::Instant;
use vcd_traces::{SampleBy, VcdErr, has_ports, samples};
use vcd_waves::{Wave, has_rows, wave_text};

/// What the program is asked: what it shows of a dump, for a design with a clock or none.
#[derive(Drop)]
struct Request<'a> {
    shown: &'a str,
    design: &'a Design,
    clock: Option<&'a Name>,
}

/// One line for each cycle: its inputs, and its outputs with the bits that are known.
fn print_rows(rt: &HostRuntime, design: &Design, trace: &Trace) -> Result<(), Failure> {
    let mut out = BufWriter::new(rt.alloc(), io::writer(rt))?;
    let (inputs, outputs) = (design.inputs.len(), design.outputs.len());
    let (mut samples, mut expected) = (trace.inputs.iter(), trace.expected.iter());
    for cycle in 0..trace.cycles {
        write!(out, "{cycle}")?;
        for sample in samples.by_ref().take(inputs) {
            write!(out, " {}", sample.value())?;
        }
        for checked in expected.by_ref().take(outputs) {
            write!(out, " {}/{}", checked.value.value(), checked.mask.value())?;
        }
        writeln!(out)?;
    }
    out.flush()?;
    Ok(())
}

/// Writes the dump of a trace, no place of which is freed.
fn write_wave(rt: &HostRuntime, request: &Request, trace: &Trace) -> Result<(), Failure> {
    let Some(top) = Name::new(rt.alloc(), b"top")? else {
        return Err(Failure::Words);
    };
    let wave = Wave {
        top: &top,
        design: request.design,
        clock: request.clock,
        trace,
        places: &[],
        chosen: &[],
    };
    if !has_rows(&wave) {
        return Err(Failure::Words);
    }
    let begin = Instant::now(rt)?;
    let text = wave_text(rt.alloc(), &wave)?;
    let end = Instant::now(rt)?;
    eprintln!(rt; "{}", end.duration_since(begin).as_millis())?;
    let mut out = io::writer(rt);
    out.write_all(text.as_slice())?;
    Ok(())
}

/// Prints a trace.
fn print_trace(rt: &HostRuntime, request: &Request, trace: &Trace) -> Result<(), Failure> {
    if request.shown == "wave" {
        return write_wave(rt, request, trace);
    }
    println!(rt; "cycles {}", trace.cycles)?;
    if request.shown == "rows" {
        print_rows(rt, request.design, trace)?;
    }
    Ok(())
}

/// Prints a trace or why there is none, and gives the exit status.
fn print_answer(
    rt: &HostRuntime,
    request: &Request,
    answer: &Result<Trace, VcdErr>,
) -> Result<u8, Failure> {
    match answer {
        Err(fault) => {
            println!(rt; "{fault:?}")?;
            Ok(1)
        }
        Ok(trace) => {
            print_trace(rt, request, trace)?;
            Ok(0)
        }
    }
}

/// The trace of a dump.
fn sampled<'a>(
    alloc: Global,
    text: &[u8],
    design: &'a Design,
    clock: Option<&'a Name>,
) -> Result<Trace, VcdErr>
    requires { HasPorts design.now }
{
    let by = SampleBy {
        design,
        clock,
        scope: None,
        zero_inputs: false,
    };
    samples(alloc, text, &by)
}

/// Reads, prints, and gives the exit status.
pub(crate) fn run(rt: &HostRuntime, words: &[String]) -> Result<u8, Failure> {
    let [clock, shown, ports @ ..] = words else {
        return Err(Failure::Words);
    };
    let design = design_of(rt.alloc(), clock, ports)?;
    let named = clock_of(rt.alloc(), clock)?;
    let (shown, clock) = (shown.as_str(), named.as_ref());
    let text = input(rt)?;
    if !has_ports(&design) {
        return Err(Failure::Words);
    }
    let begin = Instant::now(rt)?;
    let answer = sampled(rt.alloc(), text.as_slice(), &design, clock);
    let end = Instant::now(rt)?;
    if shown == "time" {
        eprintln!(rt; "{}", end.duration_since(begin).as_millis())?;
    }
    let design = &design;
    let request = Request {
        shown,
        design,
        clock,
    };
    print_answer(rt, &request, &answer)
}
