//! A cycle of a design as a net of words: nodes that stand for words of 1 to 128 bits, each computed from earlier ones.
//!
//! A net has no statements and no order of execution: where a statement chooses, a node chooses between two words. What a node
//! stands for is one definition by cases (`specs/Values`), in the terms of the design's own operators.
#![tactic(auto)]

mod net;
mod node;

pub use net::WordNet;
pub use node::{Operand, Operation, Select, WordNode};
