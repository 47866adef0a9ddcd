//! The scopes around a place of a text while it is elaborated, and what stands in them: parameters, ports, and the values that
//! instances give (IEEE 1364-2005, clause 12).
#![tactic(auto)]

mod constants;
mod given;
mod header_parameters;
mod headers;
mod kinds;
mod name_list;
mod open_names;
mod outward;
mod ranges;
mod scope_stack;
mod scope_values;
mod units;
mod values;

pub use headers::port_names;
pub use name_list::NameList;
pub use scope_stack::Scopes;
pub use units::Units;
pub use values::Values;
