//! Tests of the front end for Verilog: designs that no run of the program prints, and texts too large for a file beside the cases.
#![tactic(auto)]

#[cfg(test)]
mod bytes;
#[cfg(test)]
mod designs;
#[cfg(test)]
mod printed;
