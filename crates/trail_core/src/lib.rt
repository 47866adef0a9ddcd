//! The trail of a clause solver: the true literals in the order in which they became true, with unit propagation by lists of
//! the clauses of at most three literals, and by watched literals of the others.
#![tactic(auto)]

mod entry;
mod plain;
mod propagation;
mod short_list;
mod shorts;
mod sweep;
mod trail;
mod visit;
mod watch;
mod watches;

pub use entry::Entry;
pub use trail::Trail;
