//! What values of places change: the places and cycles in which a place takes another word than it computes. How a cycle executes the
//! assignment of a place, what the place computes there, and laws that join changes to the run of the values.
#![tactic(auto)]

pub mod laws;
mod moment;
mod places;
mod stands;
mod walk;

pub use moment::{Executed, Moment, computed_in, executed_at};
