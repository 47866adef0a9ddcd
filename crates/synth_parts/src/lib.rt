//! The nodes of what a design is made of: expressions, left sides, statements, and drivers in an order. Statements become
//! selections (IEEE 1364.1-2002, clause 5), and each word is computed once.
#![tactic(auto)]

mod array_parts;
mod assign;
mod driver;
mod merge;
mod operators;
mod scene;
mod statement;
mod store;
mod typed;

pub use array_parts::ArrayPart;
pub use scene::{Nodes, push, unsigned};
pub use statement::Arm;
pub use store::{Left, Stored};
