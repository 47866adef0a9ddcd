//! The front end for and-inverter graphs in the ASCII format (Biere, The AIGER And-Inverter Graph (AIG) Format, 2007): from the text
//! of a file to its design with an order of the drivers, or why there is none.
#![tactic(auto)]

mod aiger;
mod circle;
mod codes;
mod error;
mod laws;
mod order;

pub use aiger::Aiger;
pub use error::GraphErr;
pub use laws::{no_refusal, one_design};
