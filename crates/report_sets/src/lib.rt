//! The sets of a report: the report of what a run found, and the values that a report has of a set, read from its texts: those that the
//! set was written of, and none where it was written of no values of its places.
#![tactic(auto)]

mod findings;
mod hex;
mod kinds;
mod places;
mod rows;
mod scene;
mod values;

pub use findings::{Findings, has_rows, report_of};
pub use kinds::are_kinds;
pub use scene::Scene;
pub use values::values_of;
