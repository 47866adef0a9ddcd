//! The command that lists sets of suspects: from the names of texts to the log, the report, the lines on the sink, and a status.
#![tactic(auto)]

mod job;
mod request;
mod resume;
mod run;
mod session;

pub use request::ListRequest;
pub use run::{find, list_read};
