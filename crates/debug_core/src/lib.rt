//! The sets of suspects that can explain traces of a design, one after another, with their values (Smith, Veneris, Ali and
//! Viglas, "Fault diagnosis and logic debugging using Boolean satisfiability", IEEE TCAD 2005).
//!
//! The design becomes a net of words, this a circuit, and this, unrolled over the traces, a form of clauses; the sets that its
//! assignments select are listed by size and then by members, and each is blocked once it was listed.
#![tactic(auto)]

mod debugger;
mod encoding;
mod error;
mod fits;
mod found;
mod list_laws;
mod question;
mod supposed;

pub use clause_form::FormPlan;
pub use debugger::Debugger;
pub use encoding::plan_of;
pub use error::DebugErr;
pub use fits::have_few_cycles;
pub use found::Found;
pub use list_laws::{
    enumerator_certifies, first_is_next, form_encodes_list, none_left_is_whole,
    shown_is_listed_front, shown_is_session,
};
pub use question::Question;
