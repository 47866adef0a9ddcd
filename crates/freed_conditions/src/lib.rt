//! Designs with their conditions and input connections freed, and laws of them.
#![tactic(auto)]

pub mod laws;
