//! The design that a text means: what its instances bind, where it breaks no rule (IEEE 1364-2005, clauses 4 to 9 and 12; IEEE
//! 1364.1-2002, clause 5).
//!
//! From the instances of a text to what they bind: signals, places, drivers and blocks, or why there are none (IEEE 1364-2005,
//! clause 12).
#![tactic(auto)]

mod beside;
mod binding;
mod children;
mod copies;
mod instance;
mod item_walk;
mod laws;
mod listed;
mod meant;
mod own;
mod top;
mod walk;

pub use binding::{Binding, bind};
pub use laws::meant_is_sound;
pub use meant::design;
