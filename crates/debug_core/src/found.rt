use design_core::SetWithValues;

/// What a search for the next set comes to.
// Its `drop` is derived, since callers take an answer apart.
#[derive(Drop)]
pub enum Found {
    /// The next set of the list, with values that make every trace right.
    Set(SetWithValues),
    /// The list is whole, and the log is closing.
    End,
    /// No unit of the budget is left.
    Spent,
}
