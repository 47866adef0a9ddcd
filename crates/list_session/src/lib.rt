//! Whether a run can go on with a list that an earlier one left: the sets of a report, with the values that its texts say, and their log.
//! Five conditions are looked at in order, and the first that fails is named: the sets are in order, none holds another, each makes the
//! traces right, the log is accepted with their blocks, and it shows that no set is missing before the last one.
#![tactic(auto)]

mod laws;
mod line;
mod take;
mod unfit;
mod words;

pub use laws::{fit_is_not_unfit, fit_is_session, one_form};
pub use line::unfit_line;
pub use take::{session_sets, take_up};
pub use unfit::Unfit;
pub use words::{push_miss, push_pair, push_word};
