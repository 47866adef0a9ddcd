//! The circuit of a net of words: each node of the net as literals, one for each bit, over AND nodes, bits of inputs and of
//! states, and free bits.
#![tactic(auto)]

mod binary;
mod circuit;
mod error;
mod expand;
mod index;
pub mod laws;
mod literals;
mod names;
mod operators;
mod sources;
mod wires;

pub use circuit::Circuit;
pub use error::BlastErr;
pub use expand::blast;
