//! Names with their selects (IEEE 1364-2005, 4.9 and 5.2): what they are by themselves, their nodes, and what is wrong with them;
//! and what a finished operand shows to the expression in which it stands.
#![tactic(auto)]

mod closed;
mod first;
mod integer;
pub mod leaf;
mod name_fault;
mod name_node;
mod name_size;
mod names;
pub mod node;
mod part_select;
mod picked;
mod places;
mod selected;
pub mod taken;

pub use closed::{Closed, Picked};
pub use leaf::Leaf;
pub use names::{At, named};
pub use picked::typed_of;
