//! The instances that a text makes of a top module, in the order of the walk from the top down (IEEE 1364-2005, clause 12).
#![tactic(auto)]

mod children;
mod elaborate;
mod items;
mod laws;
mod met;
mod module_instances;
mod single_items;
mod walk;

pub use elaborate::instances;
pub use laws::{instances_are_few, list_is_hierarchy, no_instance_is_deeper, turns_are_few};
