//! Widths, signs and constants: an expression of the text becomes a sized one, or is refused with its leftmost wrong part
//! (IEEE 1364-2005, clause 5).
#![tactic(auto)]

pub mod divide;
mod error;
pub mod fold;
pub mod laws;
pub mod literal;
mod meaning;
pub mod numbers;
pub mod power;
mod scope;
mod table;

pub use error::WidthErr;
pub use meaning::{Const, Meaning};
pub use scope::Scope;
