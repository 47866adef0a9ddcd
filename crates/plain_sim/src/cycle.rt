//! Whole cycles, runs and whether a trace is right, computed on words. What is computed is compared with each equation
//! of the definition.

mod advance;
mod agree;
mod check;
mod compute;
mod copies;
mod drives;
mod holds;
mod outputs;
mod region;
mod results;
mod run;
mod samples;
mod settle;
mod start;
mod take;

pub use check::is_cycle;
pub use compute::{CycleWords, compute_cycle};
pub use drives::{block_assigns_later, part_drives};
pub use outputs::{are_right, is_right};
pub use region::is_active;
pub use run::meets;
pub use start::start_words;
