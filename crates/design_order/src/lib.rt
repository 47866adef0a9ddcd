//! The order in which the drivers of a design are carried out, or a circle of drivers that depend on each other.
//!
//! The definitions stand in `design_core` (`specs/Order.antt`).
#![tactic(auto)]

mod circle;
mod drivers;
mod error;
mod least;
mod needs;
mod sources;
mod users;

pub use drivers::order;
pub use error::OrderErr;
pub use least::least_order;
pub use users::are_within;
