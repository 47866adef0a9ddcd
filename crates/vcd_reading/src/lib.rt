//! What the text of a value change dump says (IEEE 1364-2005, clause 18), piece by piece: its definitions, the reader of its
//! header, and the scope whose variables are a design's ports.
#![tactic(auto)]

mod bits;
mod commands;
mod error;
mod found;
mod header;
mod header_reader;
mod kinds;
mod names;
mod part;
mod paths;
mod place;
mod ports;
mod reals;

pub use bits::BitName;
pub use commands::Command;
pub use error::VcdErr;
pub use found::{index, scope_of};
pub use header::{Header, Opened, Variable, bytes_at, is_real_type, section_end};
pub use header_reader::{Front, read_header};
pub use kinds::{Kind, change_at};
pub use names::{Key, Names};
pub use part::Part;
pub use place::{Place, Scope};
pub use ports::{Port, Sought, top_ports};
