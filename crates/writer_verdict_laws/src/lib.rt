//! Laws of a list and its judgement: what a listing says is whole, or a front, a second party finds so by what was written, and its texts are
//! read back.
#![tactic(auto)]

mod laws;

pub use laws::{
    checkpoint_is_read, checkpoint_is_shown, listed_front_is_judged, listed_has_table,
    listed_is_judged, listed_is_read, listed_is_shown, listed_is_whole,
};
