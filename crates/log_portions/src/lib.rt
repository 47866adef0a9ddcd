//! The text of a log in portions: its head, and the lines of the steps from a place on, as they come. Joined, the portions are
//! the text that `proof_check` writes and reads as a whole.
#![tactic(auto)]

mod laws;
mod lines;
mod portions;

pub use laws::{can_be_written, portions_join};
pub use portions::{head_text, portion};
