//! What a simulation prints of traces: the outputs in each cycle, and then whether the trace is right, or where it first
//! is not.
#![tactic(auto)]

mod checks;
pub mod laws;
mod lines;
mod runner;
mod traces;

pub use traces::{Simulation, show_traces};
