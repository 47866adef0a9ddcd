//! The parts that several productions of a Verilog text have (IEEE 1364-2005, annex A): names, ranges, delays, left sides and
//! lists, read by recursive descent with one token of look-ahead.
#![tactic(auto)]

mod left_sides;
mod lists;
mod names;

pub use left_sides::{INDEX_LEVELS, bare, left};
pub use lists::{PartReader, identifiers, listed, named_values, values};
pub use names::{Read, delay, delay_if, identifier, name, range, range_if, value, value_if};
