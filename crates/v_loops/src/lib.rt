//! Loops while a text is elaborated (IEEE 1364-2005, 9.6 and 12.4.1): their heads, those of generates too, and statements whose
//! loops are unrolled.
#![tactic(auto)]

mod heads;
mod position;
mod unroll;

pub use heads::{MOST_TURNS, Turning, begun, loop_genvar, number_of, stepped};
pub use position::Position;
