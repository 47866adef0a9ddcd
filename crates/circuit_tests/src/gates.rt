//! The nodes of each operator, one by one, and the limit.

mod limit;
mod operators;
