//! From the instances of a text to a design: signals and their numbers, drivers, blocks and places (IEEE 1364-2005, clauses 4 to 9
//! and 12.3).
//!
//! The names that are seen from a place of a text (IEEE 1364-2005, 12.7), inputs of the top that are handed on, and start values
//! (IEEE 1364-2005, 6.2.1, 9.9.1 and 12.3.9).
#![tactic(auto)]

mod error;
mod known;
mod left;
mod names;
mod place;
mod root;
mod start;

pub use error::BindErr;
pub use known::{Known, Use};
pub use left::{Left, Ranged};
pub use names::Names;
pub use place::{Home, Start};
pub use root::Root;
pub use start::{Initial, StartValue};
