//! Sized expressions.

mod contexts;
mod deep;
mod named;
mod refusals;
mod simulated;
mod sizes;
mod slices;
mod tests;
