//! Tests of `loc_base` and `io_ports`: what no clause says, values from outside, and a caller that is proved from the traits' clauses
//! alone.
#![tactic(auto)]

#[cfg(test)]
mod bits;
#[cfg(test)]
mod caller;
#[cfg(test)]
mod file_shelf;
#[cfg(test)]
mod lists;
#[cfg(test)]
mod mem_shelf;
#[cfg(test)]
mod names;
#[cfg(test)]
mod same;
#[cfg(test)]
mod sinks;
#[cfg(test)]
mod transfer;
#[cfg(test)]
mod trees;
