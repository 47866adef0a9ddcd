//! Procedural statements with their loops unrolled: each assignment is a place (IEEE 1364-2005, 9.2, 9.4, 9.5 and 9.8).
//!
//! Always blocks (IEEE 1364-2005, 9.7.5 and 9.9): one that waits for edges is clocked, any other combinational.
//!
//! The values of resets, and the form of a block with a reset (IEEE 1364.1-2002, 5.2.2).
#![tactic(auto)]

mod always;
mod arms;
mod assignment;
mod case_context;
mod case_sizes;
mod chosen;
mod clocked;
mod condition;
mod events;
mod labels;
mod statement;
mod wild;

pub use always::{Always, always_block};
pub use statement::bound;
