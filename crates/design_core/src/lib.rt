//! Designs and traces, and the definitions of what a right list of suspect sets is.
//!
//! A design is what elaboration makes of Verilog text (IEEE 1364-2005): signals, the drivers between them, clocked
//! blocks, and the places whose values a suspect set may choose. The definitions stand in `specs/`, from the value
//! of an expression (`Value`) up to the list of minimal sets (`Listing`).
#![tactic(auto)]

mod design;
mod driver;
mod expression;
pub mod laws;
mod place;
mod signal;
mod statement;
mod trace;
pub mod types;
mod values;

pub use design::Design;
pub use driver::{Clocked, Driver, Reset};
pub use expression::{BinaryOp, Node, Typed, UnaryOp};
pub use place::{Place, PlaceKind};
pub use signal::{Signal, SignalKind};
pub use statement::{CaseItem, Label, Part, Stmt, Target};
pub use trace::{Checked, Trace};
pub use values::{Members, SetWithValues, Values};
