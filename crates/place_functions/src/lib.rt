//! Sets of suspects whose values can be functions of what their places read: the operands of a place, which places are bound to
//! them, which sets work by functions, and the list of those.
#![tactic(auto)]

mod laws;
mod note;
mod note_bits;
mod note_places;
mod note_reads;
mod operands;
mod place_notes;
mod signal_bit;

pub use laws::{
    bound_reads_nothing_own, function_front_is_prefix, function_works, same_function_list,
};
pub use operands::operands_of;
pub use signal_bit::SignalBit;
