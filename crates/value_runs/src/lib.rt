//! Runs the traces of a design again, with values that are chosen for some of its places.
#![tactic(auto)]

mod entries;
mod rerun;

pub use entries::Entries;
pub use rerun::Rerun;
