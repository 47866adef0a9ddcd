//! Writes in order: each is carried out and what it leaves is said, so that a caller can say of all its writes together what stands
//! once they are carried out, and what stands where one of them fails.
#![tactic(auto)]

mod write;

pub use write::{WriteErr, begin_text, print_piece, put_piece};
