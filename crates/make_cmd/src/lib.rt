//! The command that makes an input: it writes a design and a trace, lists sets of suspects of them, and prints their numbers.
#![tactic(auto)]

mod made;
mod made_shelf;
mod request;
mod run;

pub use run::make;
