//! What a front end is: it reads the text of a design, and answers the design with an order of its drivers, or why there is none.
#![tactic(auto)]

mod format;
mod read_by;
mod reader;

pub use format::Format;
pub use read_by::ReadBy;
pub use reader::{FrontEnd, Ordered};
