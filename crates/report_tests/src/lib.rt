//! Tests of what a listing writes: its log in portions, and writes one after another where calls fail.
#![tactic(auto)]

#[cfg(test)]
mod portions;
#[cfg(test)]
mod same;
#[cfg(test)]
mod writes;
