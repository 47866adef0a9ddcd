//! The words of a value change dump (IEEE 1364-2005, 18.2), read and written: where they stand in a text, identifier
//! codes, digits of levels, times, and lines.
#![tactic(auto)]

mod codes;
mod level;
mod lines;
mod times;
mod words;

pub use codes::{code_laws, code_place, write_code};
pub use level::{Level, digits_mean, is_level_digit, read_level, write_digits};
pub use lines::line_stands;
pub use times::{read_time, time_back};
pub use words::{Extent, word_at, words_stand};
