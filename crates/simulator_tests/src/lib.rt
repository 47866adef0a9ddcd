//! Tests of the simulators: calls that no run of the program makes, and workers behind a gate of the caller.
#![tactic(auto)]

#[cfg(test)]
mod held;
#[cfg(test)]
mod pieces;
