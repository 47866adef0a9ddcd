//! Tests of the judgement on a list: a right list, and lists each of which fails one condition.
#![tactic(auto)]

#[cfg(test)]
mod claims;
#[cfg(test)]
mod judgements;
