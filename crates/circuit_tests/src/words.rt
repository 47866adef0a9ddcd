//! The nodes of each operator on short words, one by one.

mod operators;
