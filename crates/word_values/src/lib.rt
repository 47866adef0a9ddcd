//! How the words of a command are read: the values that they give to the arguments of its table, and what a value means.
#![tactic(auto)]

mod formats;
mod given;
mod kinds;
mod numbers;
mod paths;
mod sources;
mod table;
mod usage;
mod values;

pub use formats::is_reading_known;
pub use given::{Given, given_by};
pub use kinds::{are_kinds, kinds_in};
pub use numbers::{Numbers, numbers_in, workers_in};
pub use paths::{
    are_paths_once, is_path_of_one, is_same_path, one_path_begins_with, path_begins_with,
};
pub use sources::{Sources, are_source_names, sources_in};
pub use table::Table;
pub use usage::{Usage, WordsErr};
pub use values::{
    are_file_names, copies_of, is_file_name, is_name, is_name_if, is_once, is_one_of, name_if,
    name_of, names_of, number_from, text_if,
};
