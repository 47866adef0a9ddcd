//! The rules of a finished design: one driver a bit, no read of a bit that has none, no latch, assignments of one kind, no
//! race (IEEE 1364-2005, 4.6, 6.1, 9.2 and 11.5; IEEE 1364.1-2002, 5).
#![tactic(auto)]

mod latch;
pub mod laws;
mod one_driver;
mod size;
mod tally;
mod undriven;

pub use latch::first_latch;
pub use one_driver::first_driven_twice;
pub use size::is_too_large;
pub use undriven::{add_drivers_reads, add_outputs, first_undriven};
