//! The command that simulates: from the names of texts to the lines of the traces on the sink, and a status.
#![tactic(auto)]

mod loaded;
mod run;

pub use run::simulate;
