//! Small networks of assignments, as texts of Verilog, and traces of such, from letters: what the tests of lists share.
#![tactic(auto)]

mod error;
mod letters;
mod networks;

pub use error::NetworkErr;
pub use letters::{checked, name, traces, word};
pub use networks::{FAN_OUT, OR_NOT, TWO_COPIES, network};
