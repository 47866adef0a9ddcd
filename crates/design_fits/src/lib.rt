//! Whether a design can be carried out, and whether a trace is one of it: what the calls that compute cycles ask for.
#![tactic(auto)]

mod design;
mod expression;
mod parts;
mod reset;
mod statement;
mod trace;
mod widths;

pub use design::can_run;
pub use reset::is_reset_values;
pub use trace::{are_chosen, is_trace_of, samples_fit};
pub use widths::{binary_fits, unary_fits};
