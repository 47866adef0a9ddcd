//! What the clauses of a form with pairs say of a design: a set can be selected in them exactly where it works by functions. There is
//! no code here: each law is the contract of a function that does nothing, over values that no code holds.
#![tactic(auto)]

mod laws;

pub use laws::{form_encodes_functions, function_form_has_its_counter, further_outputs_work_alike};
