//! Tests of the crates of dumps (`vcd_words`, `vcd_traces`, `vcd_waves`): what no run of the program shows, or only by a file too large.
#![tactic(auto)]

#[cfg(test)]
mod codes;
#[cfg(test)]
mod cycles;
#[cfg(test)]
mod design;
#[cfg(test)]
mod texts;
