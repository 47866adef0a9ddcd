//! The instances that a text makes of a top module: their names, constants and items, generates and loops expanded (IEEE
//! 1364-2005, clause 12).
#![tactic(auto)]

mod bounds;
mod error;
mod frame;
mod index;
mod instance;
mod kind;
mod left;
mod paths;
mod places;
mod signal;
mod site;
mod standing;
mod steps;

pub use bounds::{Bounds, count_between};
pub use error::ElabErr;
pub use frame::Frame;
pub use index::index_of;
pub use instance::{Block, Child, Copied, Given, Instance, Instances, Port};
pub use kind::{Kind, assigned, is_written};
pub use left::Left;
pub use paths::{below, block_part, turn_part};
pub use places::Places;
pub use signal::Signal;
pub use site::site_of;
pub use standing::{Entry, Standing};
pub use steps::{Arm, Steps, Turn};
