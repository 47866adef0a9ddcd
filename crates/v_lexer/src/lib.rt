//! The tokens of a Verilog text (IEEE 1364-2005, clauses 3 and 19), with its compiler directives carried out.
#![tactic(auto)]

mod bytes;
mod commands;
mod comments;
mod conditionals;
mod definitions;
mod directives;
mod line_directives;
mod literals;
mod macros;
mod numbers;
mod pieces;
mod position;
mod reader;
mod real_delays;
mod state;
mod symbols;
mod terminals;
pub mod types;
mod words;

pub use reader::{few_tokens, one_outcome, tokens};
