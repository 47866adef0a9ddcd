//! `localise COMMAND ..`: finds the suspects in a design that can make its traces right, or simulates them.
#![tactic(auto)]

mod progress;
mod standard_error;
mod streams;

use crate::progress::ProgressLine;
use crate::standard_error::StandardError;
use crate::streams::held_stream;
use io_ports::{FileShelf, OutSink};
use loc_base::FreeGate;
use localise_cmd::run_program;
use std::alloc::AllocError;
use std::env::Env;
use std::io::IsTerminal;
use std::process::ExitCode;
use std::thread::Threads;
use std::{env, io};
use suspect_map::{Ands, Blocks, Gates, Granularity, InstanceOutputs, Modules, Statements};

/// The arguments that the system gives.
fn arguments(rt: &HostRuntime) -> io::Result<Vec<String>> {
    Ok(env::args(rt)?.collect(rt.alloc())?)
}

/// The line that shows how far a search is, where standard error is a terminal.
fn progress_line(rt: &HostRuntime) -> Option<ProgressLine<'_, HostRuntime>> {
    if rt.stderr().is_terminal() {
        ProgressLine::new(rt)
    } else {
        None
    }
}

/// Carries out the arguments, with the five kinds of suspects of Verilog texts and that of and-inverter graphs. `threads` is the runtime,
/// as what starts threads.
fn status_of<R: Env + Threads + Sync>(threads: &R, rt: &HostRuntime) -> Result<u8, AllocError> {
    let alloc = rt.alloc();
    let mut kinds: Vec<Box<dyn Granularity>> = Vec::new(alloc);
    kinds.push(Box::new(alloc, Statements)?)?;
    kinds.push(Box::new(alloc, Blocks)?)?;
    kinds.push(Box::new(alloc, Gates)?)?;
    kinds.push(Box::new(alloc, InstanceOutputs)?)?;
    kinds.push(Box::new(alloc, Modules)?)?;
    kinds.push(Box::new(alloc, Ands)?)?;
    let mut shelf = FileShelf::new(rt, alloc);
    let mut out = OutSink::new(rt);
    let mut notes = StandardError::new(alloc, rt.stderr(), progress_line(rt));
    Ok(run_program(
        threads,
        alloc,
        arguments(rt),
        kinds.as_slice(),
        &mut shelf,
        &mut out,
        &mut notes,
        &FreeGate,
    ))
}

fn main(rt: HostRuntime) -> ExitCode {
    // One for each of the three streams.
    let _held = (held_stream(&rt), held_stream(&rt), held_stream(&rt));
    ExitCode::from(status_of(&rt, &rt).unwrap_or(7))
}
