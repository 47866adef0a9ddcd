//! The values that a model of a form gives to the places of a set of suspects.
#![tactic(auto)]

mod columns;
mod fits;
mod places;
mod rows;
mod words;

pub use fits::{are_places, has_one_column_each};
pub use rows::values;
