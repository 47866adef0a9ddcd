use clause_base::Log;
use cycle_sim::Miss;
use debug_core::{FormPlan, Question};
use report_doc::types::ReportSet;

/// What is judged of a list: that it is whole, or a front; or the first condition that fails, with the first set or step by which it does.
/// Sets and steps are counted from 1.
#[derive(Clone, Copy, Debug, PartialEq, Eq)]
pub enum Verdict {
    /// Each condition holds: the sets are the whole list.
    Whole,
    /// The set isn't in order: its members aren't ascending numbers of suspects, or are too many, or it doesn't come after the set
    /// before it, or its texts aren't those of values of its places.
    Order { set: u32 },
    /// The set contains the other one.
    Contains { set: u32, other: u32 },
    /// With the values of the set an output isn't as expected.
    Replay { set: u32, miss: Miss },
    /// The step is refused; or, one behind the last, the log lacks the block of a set.
    Step { number: u32 },
    /// The log is accepted; its last step doesn't close the list, but it shows that no set is missing before the last one: the sets are
    /// the first of the list.
    Front,
    /// The log is accepted, and shows neither.
    Open,
}

/// A list that is to be judged: what was asked, the plan of its form, the sets of a report, and the log that is to show that they are
/// the list.
#[derive(Clone, Copy)]
pub struct Listed<'a> {
    pub question: &'a Question<'a>,
    pub plan: &'a FormPlan,
    pub sets: &'a [ReportSet],
    pub log: &'a Log,
}
