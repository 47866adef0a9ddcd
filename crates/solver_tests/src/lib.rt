//! Tests of the crates of the solver: `card_counter`, `trail_core`, `sat_core` and `set_enum`.
#![tactic(auto)]

#[cfg(test)]
mod clauses;
#[cfg(test)]
mod counters;
#[cfg(test)]
mod sets;
#[cfg(test)]
mod solving;
#[cfg(test)]
mod trails;
