//! Whether values fit a design and the traces that they are chosen for, and whether the values of many sets make traces right, set by
//! set, by several workers.
#![tactic(auto)]

mod fitting;
mod set_search;
mod trial;

pub use fitting::are_values_for;
pub use set_search::replay_all;
pub use trial::Trial;
