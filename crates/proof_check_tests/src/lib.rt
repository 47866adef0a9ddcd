//! Tests of `proof_check`, beside a checker that searches through lists, and of `dimacs_solver`.
#![tactic(auto)]

#[cfg(test)]
mod formulas;
#[cfg(test)]
mod logs;
