ghost use Rattle.std.specs.Prelude.{◌≡◌};

use report_doc::types::Ending;

/// How a listing ended.
#[derive(Clone, Copy, Debug, PartialEq, Eq)]
pub enum Outcome {
    /// All that was due is written.
    Ended(Ending),
    /// The shelf or the sink failed. Its count of faults rose.
    Failed,
    /// Memory was refused.
    Memory,
}

impl Outcome {
    ghost use Rattle.list_writer.specs.Outcomes.{status_of};

    /// The status of the program.
    pub fn status(self) -> u8
        ensures { result ≡ status_of self }
    {
        match self {
            Outcome::Ended(Ending::Complete) => 0,
            Outcome::Ended(Ending::Budget | Ending::Sets | Ending::Earlier) => 1,
            Outcome::Failed => 6,
            Outcome::Memory => 7,
        }
    }
}
