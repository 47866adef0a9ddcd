//! A net of words from its parts, where they make one: what a net keeps (`word_net`, `IsNet`), decided.
#![tactic(auto)]

mod checked;
mod fits;
mod operands;
mod widths;

pub use checked::Parts;
