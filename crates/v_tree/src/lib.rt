//! The syntax tree of a Verilog text (IEEE 1364-2005, clauses 4 to 7, 9 and 12), and the reading of its expressions.
#![tactic(auto)]

mod close;
mod fault;
mod found;
mod input;
mod make;
mod mark;
mod operator_of;
mod public;
mod read;
mod text;

pub use fault::{Fault, ParseErr, Stop, error_of, no_place};
pub use found::Found;
pub use input::{expect, lower, place_span, site as site_of, stands};
pub use mark::mark_at;
pub use public::{expr, read_expression};
pub use read::{select, selects};
pub use text::{name_of, number_of};
pub use v_lexer::types::Terminal;
