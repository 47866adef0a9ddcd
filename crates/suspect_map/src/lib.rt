//! Suspects: which places of a design are looked at as one (Smith, Veneris, Ali and Viglas, IEEE TCAD 2005).
//!
//! A granularity groups the places of a design. It is an object behind the trait `Granularity`, so that a caller can hand
//! in one of its own. The ones of this crate are those of Verilog texts and AIGER files, one in a file each.
#![tactic(auto)]

mod ands;
mod blocks;
mod chains;
mod choose;
mod conditions;
mod firsts;
mod gates;
mod granularity;
mod group;
mod grouping;
mod input_connections;
mod instance_outputs;
mod label;
pub mod laws;
mod modules;
mod numbered;
mod statements;

pub use ands::Ands;
pub use blocks::Blocks;
pub use choose::{ChooseErr, chosen};
pub use conditions::Conditions;
pub use gates::Gates;
pub use granularity::Granularity;
pub use group::{Group, Groups};
pub use input_connections::InputConnections;
pub use instance_outputs::InstanceOutputs;
pub use modules::Modules;
pub use statements::Statements;
