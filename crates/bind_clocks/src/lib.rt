//! What is bound so far, and what reads the clock (IEEE 1364-2005, 6.1; IEEE 1364.1-2002, 5.2.2).
//!
//! What blocks wait for (IEEE 1364.1-2002, 5.2.2).
#![tactic(auto)]

mod bound;
mod driven;
mod edges;
mod frame;
mod looked;
mod roots;
mod wait;

pub use bound::{Bound, BoundLists};
pub use driven::Made;
pub use edges::wait_for;
pub use frame::Frame;
pub use wait::{Resetting, Wait};
