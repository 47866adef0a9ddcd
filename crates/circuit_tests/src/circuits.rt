//! Circuits of small nets, node by node, and the limit.

mod build;
mod indexes;
mod limit;
mod nets;
