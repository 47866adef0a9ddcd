//! The design of an and-inverter graph in the ASCII format (Biere, The AIGER And-Inverter Graph (AIG) Format, 2007): its inputs, its
//! latches as registers, its ANDs and outputs as nets; or why a text means none.
#![tactic(auto)]

mod design;
mod drivers;
mod file;
mod laws;
mod meaning;
mod numbering;
mod places;
mod signals;
mod values;

pub use aiger_text::AigerErr;
pub use laws::{
    file_is_driven_once, file_is_not_too_large, file_is_well_formed, no_refusal, one_design,
};
pub use meaning::aiger;
