//! Widths, signs and constants: an expression of the text becomes a sized one, or is refused with its leftmost wrong part
//! (IEEE 1364-2005, clause 5).
#![tactic(auto)]

mod apply;
mod close;
mod form;
mod measure;
mod measured;
mod one_bit;
mod operands;
mod operators;
mod parts;
mod sizes;

pub use sizes::{Size, constant, constant_in, own_size, typed, typed_name};
pub use v_sizes::{Const, Meaning, Scope, WidthErr};
