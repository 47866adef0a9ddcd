ghost use Rattle.std.specs.Prelude.{◌≡◌};
ghost use Rattle.list_session.specs.Parts.{unfit_of};

use cycle_sim::Miss;
use list_verdict::ListFault;
use thiserror::Error;

/// Why a run can't go on with a list: the first condition that fails, with the first set, step or suspect by which it does. Sets, steps and
/// suspects are counted from 1.
#[derive(Clone, Copy, Debug, PartialEq, Eq, Error)]
pub enum Unfit {
    /// The set isn't in order: its members aren't ascending numbers of suspects, or are too many, or it doesn't come after the set
    /// before it, or its texts aren't those of values of its places.
    #[error("set {set} isn't in order, or its values aren't those of its places")]
    Order { set: u32 },
    /// The set contains the other one.
    #[error("set {set} contains set {other}")]
    Contains { set: u32, other: u32 },
    /// With the values of the set an output isn't as expected.
    #[error("with the values of set {set} an output isn't as recorded")]
    Replay { set: u32, miss: Miss },
    /// The step is refused; or, one behind the last, the log lacks the block of a set.
    #[error("step {number} of the log doesn't follow, or isn't there")]
    Step { number: u32 },
    /// The log doesn't show that the suspect is in no set before the last one of the same size; or, at 0, that there is no smaller set.
    #[error("the log doesn't show that no set is missing before the last one: suspect {suspect}")]
    Shown { suspect: u32 },
}

impl Unfit {
    /// One of the first four conditions fails.
    pub(crate) fn of(fault: ListFault) -> Unfit
        ensures { result ≡ unfit_of fault }
    {
        match fault {
            ListFault::Order { set } => Unfit::Order { set },
            ListFault::Contains { set, other } => Unfit::Contains { set, other },
            ListFault::Replay { set, miss } => Unfit::Replay { set, miss },
            ListFault::Step { number } => Unfit::Step { number },
        }
    }
}
