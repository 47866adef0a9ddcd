//! Tests of the crates of circuits: `gate_base`, `bit_words` and `bit_circuit`.
#![tactic(auto)]

#[cfg(test)]
mod circuits;
#[cfg(test)]
mod gates;
#[cfg(test)]
mod words;
