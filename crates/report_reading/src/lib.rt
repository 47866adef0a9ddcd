//! Reads a report's text.
#![tactic(auto)]

mod fields;
mod from_json;
mod kinds;
mod laws;
mod leaves;
mod reading;
mod reports;
mod values;

pub use laws::{same_report, text_reads_back};
pub use reading::read_report;
