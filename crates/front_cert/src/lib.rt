//! Whether a log shows that a list of sets lacks none before its last one.
//!
//! What a log has to show is defined in `specs/Shows.antt` of `card_counter`, in terms of the clauses of its steps alone. `shows` says
//! whether it does.
#![tactic(auto)]

mod front;
mod laws;
mod missing;
mod pieces;
mod reach;
mod seen;

pub use front::Front;
pub use laws::{certificate_finishes, one_answer, shown_is_front, shown_is_not_before};
pub use missing::shows;
