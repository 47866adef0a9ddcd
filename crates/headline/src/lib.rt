//! What a run of the program shows, as laws: the one clause of a run, said of designs, traces and sets alone. There is no code: each law
//! is the contract of a function that does nothing.
#![tactic(auto)]

mod laws;

pub use laws::{front_is_meant, list_is_meant, yes_is_meant};
