//! The writer of waves: a trace as a value change dump (IEEE 1364-2005, 18.2) of the top's ports, and of the values
//! chosen for freed places.
#![tactic(auto)]

mod cycles;
mod header;
mod text;
mod values;
mod variable;
mod wave;

pub use text::wave_text;
pub use variable::{Kind, Variable};
pub use wave::{Wave, has_rows};
