//! The signals of a design and their numbers, and the names of its scopes (IEEE 1364-2005, 4.2, 4.9, 12.3 and 12.5).
#![tactic(auto)]

mod declared;
mod ground;
mod instances;
mod looped;
mod met;
mod names;
mod numbering;
mod ported;
mod signals;
mod tokens;
mod words;

pub use instances::signals_of;
