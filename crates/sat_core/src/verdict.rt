/// What a search under assumptions comes to.
#[derive(Clone, Copy, Debug, PartialEq, Eq)]
pub enum Verdict {
    /// There is a model; of all, its preferred variables' values are the lexicographically greatest.
    Model,
    /// The log's last step, of this number counted from 1, derives a clause of negated assumptions alone.
    Closed { step: u32 },
    /// No unit of the budget is left.
    Spent,
}
