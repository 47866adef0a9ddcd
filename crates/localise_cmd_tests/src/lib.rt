//! Tests of `localise_cmd` that no run of the program can show, over a shelf and a sink in memory.
#![tactic(auto)]

#[cfg(test)]
mod cuts;
#[cfg(test)]
mod faults;
#[cfg(test)]
mod gates;
#[cfg(test)]
mod kinds;
#[cfg(test)]
mod networks;
#[cfg(test)]
mod numbers;
#[cfg(test)]
mod own;
#[cfg(test)]
mod random;
#[cfg(test)]
mod runs;
#[cfg(test)]
mod same;
