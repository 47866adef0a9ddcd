//! The cycles of a circuit for some traces, one after another, over one list of definitions: the AND nodes and the free bits
//! that have variables in a form (bounded model checking: Biere, Cimatti, Clarke, Zhu 1999).
#![tactic(auto)]

mod error;
mod fits;
mod frame;
mod free_bit;
mod groups;
mod hints;
pub mod laws;
mod nodes;
mod trace;
mod unrolled;
mod unrolled_lit;
mod unrolling;
mod work;

pub use error::UnrollErr;
pub use fits::are_traces;
pub use free_bit::FreeBit;
pub use unrolled::Unrolled;
pub use unrolled_lit::UnrolledLit;
pub use unrolling::unroll;
