//! What is printed for a person of a note: where a text is refused and why, with the line and a caret under the place; which file
//! failed; where a trace first isn't as expected. Nobody reads it back, so nothing is promised of its wording.
#![tactic(auto)]

mod excerpt;
mod literal;
mod note;
mod place;
mod refused;

pub use note::push_note;
