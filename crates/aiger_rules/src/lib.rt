//! The rules on what the text of an and-inverter graph has (Biere, The AIGER And-Inverter Graph (AIG) Format, 2007): which
//! literals its rows may define and read, which input is the clock, and what its ports are called.
#![tactic(auto)]

mod clock;
mod firsts;
mod laws;
mod literals;
mod names;
mod naming;
mod ports;

pub use firsts::Firsts;
pub use laws::{no_misnaming, no_refusal, one_line, one_name};
pub use literals::check_literals;
pub use naming::check_names;
pub use ports::Ports;
