//! The front end for Verilog: from the text of a design to the design with an order of its drivers, or why there is none
//! (IEEE 1364-2005, clauses 3 to 9, 12 and 19; IEEE 1364.1-2002, clause 5).
#![tactic(auto)]

mod circle;
mod codes;
mod design;
mod error;
mod laws;
mod order;
mod text;
mod text_laws;
mod verilog;

pub use error::DesignErr;
pub use laws::{no_refusal, one_design};
pub use text_laws::{design_of_text_has_one_run, design_of_text_is_well_formed, text_is_written};
pub use verilog::Verilog;
