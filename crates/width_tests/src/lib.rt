//! Tests of `v_widths`, and of the scopes of `v_sizes`.
#![tactic(auto)]

#[cfg(test)]
mod cases;
#[cfg(test)]
mod constants;
#[cfg(test)]
mod sized;
