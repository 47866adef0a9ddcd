//! Laws of what `v_widths` answers.
#![tactic(auto)]

pub mod laws;
