//! Tests of forms of designs, from texts: for each set of at most k suspects what the form says beside a plain trial of all values, and
//! the values of each model replayed.
#![tactic(auto)]

#[cfg(test)]
mod asked;
#[cfg(test)]
mod build;
#[cfg(test)]
mod cases;
#[cfg(test)]
mod form;
#[cfg(test)]
mod trial;
