//! The reading of a Verilog text's tokens as its tree (IEEE 1364-2005, annex A): the items of a module, modules and the whole
//! text. Statements are read by `v_statements`, declarations and headers by `v_declarations`, assignments, gates and instances by
//! `v_declarations`.
#![tactic(auto)]

mod item_kinds;
mod item_nodes;
mod items;
mod modules;
mod source_laws;
mod source_text;

pub use source_laws::{few_parts, one_source};
pub use source_text::source;
pub use v_statements::{initial_statement, statement};
