//! The digest of a run's inputs, by which a log and a report are known to be of the same run: the SHA-256 (FIPS 180-4) of
//! a short text with the words of the run and the digests of its texts.
#![tactic(auto)]

mod digest;
mod inputs;

pub use digest::{inputs_digest, text_digest};
pub use inputs::Inputs;
