//! Forms whose sets are known, searches that are cut off and that take over, and mixed forms beside a search over all sets.

mod budgets;
mod imports;
mod lists;
mod mixed;
mod problem;
