//! A map of signals to nodes that can go back to what it was when a branch of a statement began, at the cost of what was
//! stored since then.
#![tactic(auto)]

mod distinct;
mod entry;
mod map;
mod pair;

pub use distinct::ascending;
pub use entry::{Entry, entries_at};
pub use map::NodeMap;
pub use pair::{Kept, Pair};
