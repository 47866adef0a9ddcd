ghost use Rattle.std.specs.Prelude.{◌≡◌};
ghost use Rattle.list_verdict.specs.Faults.{verdict_of};

use crate::verdict::Verdict;
use cycle_sim::Miss;
use thiserror::Error;

/// The first of the four conditions on sets and log that fails, with the first set or step by which it does. Sets and steps are counted
/// from 1.
#[derive(Clone, Copy, Debug, PartialEq, Eq, Error)]
pub enum ListFault {
    /// The set isn't in order: its members aren't ascending numbers of suspects, or are too many, or it doesn't come after the set
    /// before it, or its texts aren't those of values of its places.
    #[error("set {set} isn't in order, or its values aren't those of its places")]
    Order { set: u32 },
    /// The set contains the other one.
    #[error("set {set} contains set {other}")]
    Contains { set: u32, other: u32 },
    /// With the values of the set an output isn't as expected.
    #[error("with the values of set {set} an output isn't as recorded")]
    Replay { set: u32, miss: Miss },
    /// The step is refused; or, one behind the last, the log lacks the block of a set.
    #[error("step {number} of the log doesn't follow, or isn't there")]
    Step { number: u32 },
}

impl ListFault {
    /// What is judged of the list.
    pub(crate) fn verdict(self) -> Verdict
        ensures { result ≡ verdict_of self }
    {
        match self {
            ListFault::Order { set } => Verdict::Order { set },
            ListFault::Contains { set, other } => Verdict::Contains { set, other },
            ListFault::Replay { set, miss } => Verdict::Replay { set, miss },
            ListFault::Step { number } => Verdict::Step { number },
        }
    }
}
