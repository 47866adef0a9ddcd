//! The plain program of the definitions: cycles and traces computed on words, one for each signal. Each call has the
//! definition that it computes as its contract.
#![tactic(auto)]

mod cycle;

pub use cycle::{
    CycleWords, are_right, block_assigns_later, compute_cycle, is_active, is_cycle, is_right,
    meets, part_drives, start_words,
};
