//! The text of an and-inverter graph in the ASCII format (Biere, The AIGER And-Inverter Graph (AIG) Format, 2007): its
//! header, its rows and its symbols, or the first line that isn't of its shape.
#![tactic(auto)]

mod content;
mod cut;
mod fault;
mod header;
mod laws;
mod numbers;
mod row;
mod rows;
mod symbol;
mod symbols;

pub use content::{Content, read_content};
pub use fault::AigerErr;
pub use laws::{no_refusal, one_content};
pub use row::{Counts, Row, Section};
pub use symbol::Symbol;
