//! Tests of synthesis, from texts of designs: circuits node by node, cycles and next states beside the simulator, operators beside Icarus
//! Verilog, and the most nodes that a circuit may have.
#![tactic(auto)]

#[cfg(test)]
mod build;
#[cfg(test)]
mod circuits;
#[cfg(test)]
mod constructs;
#[cfg(test)]
mod cycles;
#[cfg(test)]
mod limits;
#[cfg(test)]
mod named;
#[cfg(test)]
mod operators;
#[cfg(test)]
mod recorded;
#[cfg(test)]
mod run;
#[cfg(test)]
mod shown;
