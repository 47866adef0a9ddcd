//! Tests of `made_input`.
#![tactic(auto)]

#[cfg(test)]
mod texts;
