//! A counter of true literals, as clauses: a sequential counter (Sinz, "Towards an optimal CNF encoding of Boolean cardinality
//! constraints", CP 2005) that counts up to k + 1.
#![tactic(auto)]

mod bounds;
mod clauses;
pub mod laws;
mod place;
mod step;

pub use bounds::bound;
pub use clauses::counter;
pub use place::counters;
