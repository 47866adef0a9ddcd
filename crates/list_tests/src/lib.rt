//! Tests of the two searches for minimal sets, `plain_list` and `debug_core`, on three small networks.
#![tactic(auto)]

#[cfg(test)]
mod debugging;
#[cfg(test)]
mod lists;
#[cfg(test)]
mod refusals;
#[cfg(test)]
mod searches;
#[cfg(test)]
mod suspects;
