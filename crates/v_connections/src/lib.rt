//! What the items of a module declare, and what its instances are connected to (IEEE 1364-2005, clause 4 and 12.3).
#![tactic(auto)]

mod connections;
mod declarations;
mod place;

pub use connections::connections_fit;
pub use declarations::{declare_names, declare_nets};
pub use place::{Header, Place};
