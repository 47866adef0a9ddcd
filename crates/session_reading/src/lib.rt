//! What a list is judged by, or gone on with: a report and a log, read from their texts, and whether both are of the same inputs.
#![tactic(auto)]

mod digests;
mod logs;
mod reports;
mod texts;

pub use digests::{Digests, same_inputs};
pub use logs::load_log;
pub use reports::load_report;
