use clause_base::Lit;

/// A true literal of a trail.
#[derive(Clone, Copy, Debug, PartialEq, Eq)]
pub struct Entry {
    pub lit: Lit,
    /// The number of decisions up to and including this literal.
    pub decision_level: u32,
    /// The number of the clause that made the literal true; none for a decision.
    pub reason: Option<u32>,
}
