//! Laws of binding, and of the instances of a text that they stand on: what binding gives for these is well formed
//! (IEEE 1364-2005, clauses 4 to 9 and 12).
#![tactic(auto)]

mod instance_laws;
mod laws;

pub use instance_laws::{elaborated_of_text, elaborated_stand};
pub use laws::{binding_can_run, binding_is_well_formed, left_side_fits, statement_fits};
