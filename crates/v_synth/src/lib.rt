//! From a design to a net of words: statements become selections (IEEE 1364.1-2002, clause 5), and a cycle becomes nodes that
//! are each computed once.
#![tactic(auto)]

mod assigned;
mod begin;
mod block;
mod clocked;
mod every_block;
pub mod laws;
mod marks;
mod net;
mod rows;

pub use clocked::Turn;
pub use net::word_net;
