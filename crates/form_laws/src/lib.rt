//! What the clauses of a form say of sets of suspects (Smith, Veneris, Ali and Viglas, "Fault diagnosis and logic debugging using
//! Boolean satisfiability", IEEE TCAD 2005). There is no code here: each law is the contract of a function that does nothing,
//! over values that no code holds.
#![tactic(auto)]

mod design_laws;
mod laws;

pub use design_laws::{form_encodes_design, numbers_meet_as_bits};
pub use laws::{
    bits_have_one_column, few_are_selected, form_encodes_sets, form_has_its_counter,
    models_meet_traces, variables_are_within,
};
