//! The clauses and bounds of small counters as numbers, all assignments of small counters, and the size of a large one.

mod assignments;
mod made;
mod numbers;
