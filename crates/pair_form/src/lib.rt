//! The clauses that say, of each place in any two cycles, that its bits are a function of its operands.
#![tactic(auto)]

mod compared;
mod laws;
mod pair;

pub use compared::{Compared, OutputBit};
pub use laws::pairs_mean;
pub use pair::Pair;
