//! How the signals of a finished design are assigned: each by one kind of assignment, and without races between blocks (IEEE
//! 1364-2005, 6.1, 9.2 and 11.5; IEEE 1364.1-2002, 5).
#![tactic(auto)]

mod assigned;
mod homes;
mod races;
mod users;

pub use assigned::{first_misassigned, is_variable};
pub use races::first_race;
