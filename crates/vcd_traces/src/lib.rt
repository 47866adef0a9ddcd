//! The reader of value change dumps (IEEE 1364-2005, clause 18).
#![tactic(auto)]

mod changes;
mod codes;
mod condition;
mod dump;
mod moment;
mod pieces;
mod reader;
mod rows;
mod running;
mod sampling;
mod sites;
mod table;
mod watches;

pub use condition::{formed_has_ports, has_ports};
pub use sampling::{SampleBy, samples};
pub use vcd_reading::VcdErr;
