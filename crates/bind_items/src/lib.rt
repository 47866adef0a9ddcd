//! Items as they are written, each with what it adds to the design (IEEE 1364-2005, 4.9, 6.1, 6.2.1, clause 7 and 9.9.1): continuous
//! assignments, values of declarations, gates, and initial blocks.
//!
//! What gates compute (IEEE 1364-2005, 7.1 to 7.3): bit 0 of each input, the operator between the inputs, the negation, and the value
//! for an output.
//!
//! What gives signals their values outside of procedures: continuous assignments, gates, and connections of module instances (IEEE
//! 1364-2005, 6.1, clause 7 and 12.3.9).
#![tactic(auto)]

mod assignments;
mod bit;
mod connections;
mod copies;
mod declarations;
mod gates;
mod ground;
mod initials;
mod inputs;
mod logic;
mod outputs;
mod ports;
mod scene;
mod starts;
mod terminals;
mod wires;
mod written;

pub use assignments::{Assigning, assignment, continuous};
pub use bit::low_bit;
pub use connections::{Joined, child};
pub use copies::copied;
pub use gates::{WrittenGate, gate};
pub use ground::Ground;
pub use logic::{for_width, gate_value, joined};
pub use scene::Scene;
pub use starts::start_at;
pub use terminals::{inputs_of, outputs_of, terminals_fit};
pub use written::written_item;
