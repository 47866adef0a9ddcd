//! The signals of a design with their numbers, the names of each scope with what they stand for, and the ports of instances by their
//! signals (IEEE 1364-2005, 4.2, 4.9 and clause 12).
//!
//! Expressions and constants where they stand (IEEE 1364-2005, clause 5).
//!
//! The parts of left sides, left sides, and the addresses of arrays (IEEE 1364-2005, 4.9, 5.2.1, 6.1 and 9.2).
//!
//! The ports of instances by their signals, and the instances that stand in each (IEEE 1364-2005, 12.3).
//!
//! The values that registers have at the start (IEEE 1364-2005, 6.2.1 and 9.9.1).
#![tactic(auto)]

mod addresses;
mod children;
mod connected;
mod expressions;
mod left_side;
mod named_parts;
mod numbered;
mod parts;
mod scope;
mod socket;
mod sockets;
mod started;
mod top;
mod unknown;

pub use addresses::{Addresses, addresses_at, counted};
pub use children::children_numbers;
pub use connected::{output, target_in};
pub use expressions::{assigned, by_itself, constant_at, index_at, named, own_size, sized_in};
pub use left_side::target;
pub use numbered::Numbered;
pub use parts::{part_of, ranged_of};
pub use scope::{Scope, Whole};
pub use socket::Socket;
pub use sockets::{all_sockets, is_input};
pub use started::all_started;
pub use top::{clock_of, inputs_of, outputs_of, top_roots};
