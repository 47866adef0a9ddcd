//! Circuits of AND nodes (and-inverter graphs, as in Kuehlmann, Paruthi, Krohm, Ganai 2002): literals, nodes, and the
//! arena in which nodes are made under a limit.
#![tactic(auto)]

mod arena;
mod error;
pub mod laws;
mod literal;
mod node;
mod operators;

pub use arena::Maker;
pub use error::MakeErr;
pub use literal::Literal;
pub use node::Node;
