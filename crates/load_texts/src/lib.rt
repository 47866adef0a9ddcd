//! What a command reads before it begins: the design of a text and the traces of others, each loaded from a shelf, or why there is
//! none, with its line and its status.
#![tactic(auto)]

mod dumps;
mod faults;
mod imprint;
mod lines;
mod loads;
mod scopes;
mod sources;
mod telling;

pub use faults::{DesignFault, LoadFault, TraceFault};
pub use imprint::{Imprint, NoImprint};
pub use lines::{load_design, load_traces};
pub use loads::{DesignRead, TracesRead, load_text};
