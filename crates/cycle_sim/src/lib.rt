//! The simulator: the cycles of a design one after another, each as the definition of a cycle says, and whether
//! values that were chosen for places make traces right.
#![tactic(auto)]

mod begin;
mod block;
mod collect;
mod compiled;
mod machine;
mod mask;
mod miss;
mod miss_search;
mod plan;
mod registers;
mod sim;
mod suited;

pub use miss::Miss;
pub use miss_search::replay;
pub use sim::Sim;
pub use suited::can_simulate;
