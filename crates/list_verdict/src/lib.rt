//! A second party's judgement on a list of sets that can explain traces: whether it is the whole list, by the values of the sets and by
//! a log. Five conditions are looked at in order, and the first that fails is named: the sets are in order, none holds another, each
//! makes the traces right, the log is accepted, and it closes the list. Where only the last one fails, it is asked whether the log shows
//! that the list is a front.
#![tactic(auto)]

mod examination;
mod fault;
mod holding;
mod judgement;
mod laws;
mod log;
mod members;
mod order;
mod shown;
mod verdict;

pub use examination::examine;
pub use fault::ListFault;
pub use judgement::judge;
pub use laws::{shown_is_front_list, shown_is_judged, whole_is_judged, whole_is_list};
pub use shown::missing_of;
pub use verdict::{Listed, Verdict};
