//! The circuit of a design's net is a circuit of the design, so the clauses of its form speak of the design, and what a model of
//! the form gives explains the design's traces. There is no code here: each law is the contract of a function that does nothing, over
//! values that no code holds.
#![tactic(auto)]

mod cycle_laws;
mod laws;
mod net_laws;

pub use cycle_laws::{design_cycle_evaluated, evaluated_is_cycle};
pub use laws::{
    circuit_is_of_design, model_explains, net_can_be_asked, net_form_encodes_design,
    places_are_free_bits, suspects_are_places,
};
pub use net_laws::{net_is_given, net_reads_design};
