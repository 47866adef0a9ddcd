//! Writes the waves of sets: for each set of suspects and each trace a value change dump with the outputs that the set's values give.
#![tactic(auto)]

mod entries;
mod laws;
mod name;
mod outputs;
mod rerun;
mod waves;
mod writer;

pub use laws::{same_name, some_runs};
pub use name::wave_name;
pub use waves::Waves;
pub use writer::put_waves;
