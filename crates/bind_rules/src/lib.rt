//! The first rule that a bound design breaks, and where (IEEE 1364-2005, 4.6, 6.1, 9.2 and 11.5; IEEE 1364.1-2002, 5).
#![tactic(auto)]

mod beside;
mod initial;
mod rules;
mod spans;

pub use beside::{Beside, clock_fault};
pub use rules::first_broken;
