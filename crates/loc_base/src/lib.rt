//! What every layer of `localise` stands on: want of memory, spans of text, classes of bytes, names and their numbers,
//! lists and boxes that contracts see as what they hold, exact arithmetic on words of 1 to 128 bits, and the gate that
//! workers pass.
#![tactic(auto)]

mod ascii;
mod bits;
mod boxed;
mod digest;
mod gate;
mod items;
mod memory;
mod name;
mod name_table;
mod rows;
mod span;

pub use ascii::{is_decimal, is_visible, is_white};
pub use bits::Bits;
pub use boxed::Boxed;
pub use digest::Digest;
pub use gate::{FreeGate, Gate, Workers};
pub use items::{Bytes, Items};
pub use memory::NoMemory;
pub use name::Name;
pub use name_table::NameTable;
pub use rows::Rows;
pub use span::Span;
