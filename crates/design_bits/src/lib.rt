//! Which bits the parts of a design drive and read, as masks of 128 bits, one for each signal.
//!
//! The definitions stand in `design_core` (`specs/Drives.antt`, `Reads.antt`, `Mentions.antt`).
#![tactic(auto)]

mod driver_bits;
mod drives;
mod full;
mod listed;
mod mask;
mod mentions;
mod paths;
mod pick;
mod reads;
mod region;
mod set;
mod shared;
mod waits;

pub use driver_bits::DriverBits;
pub use drives::{add_block, add_driver};
pub use mask::{exceeds, share_bit};
pub use mentions::{add_block_mentions, add_driver_mentions};
pub use region::{add_one, add_whole};
pub use set::BitSet;
