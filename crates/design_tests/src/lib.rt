//! Tests of what is asked of a finished design: the order of its drivers (`design_order`), its rules (`design_rules`, `assign_rules`), and
//! its suspects (`suspect_map`), with granularities of a caller's own.
#![tactic(auto)]

#[cfg(test)]
mod build;
#[cfg(test)]
mod choosing;
#[cfg(test)]
mod designs;
#[cfg(test)]
mod drivers;
#[cfg(test)]
mod kinds;
#[cfg(test)]
mod orders;
#[cfg(test)]
mod own;
#[cfg(test)]
mod paths;
#[cfg(test)]
mod places;
#[cfg(test)]
mod races;
#[cfg(test)]
mod shown;
