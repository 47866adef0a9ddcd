//! The command that judges a list: from the names of a design, a report, a log and traces to `yes`, or to the first condition that
//! fails, and a status.
#![tactic(auto)]

mod evidence;
mod kinds;
mod run;
mod table;
mod verdicts;
mod wanted;

pub use run::check;
