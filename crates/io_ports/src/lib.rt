//! The two ports to the outside: a shelf of named texts and a sink for one text. Each is a trait with its meaning, an
//! implementation in memory that tells everything and fails where it is told to, and a thin one over the system.
#![tactic(auto)]

mod errors;
mod fault_kind;
mod fault_plan;
mod file_shelf;
mod file_use;
mod kept_name;
mod mem_shelf;
mod mem_sink;
mod out_sink;
mod shelf;
mod sink;
mod texts;
mod transfer;

pub use errors::{LoadErr, PutErr, SinkFault};
pub use fault_kind::FaultKind;
pub use file_shelf::FileShelf;
pub use mem_shelf::MemShelf;
pub use mem_sink::MemSink;
pub use out_sink::OutSink;
pub use shelf::Shelf;
pub use sink::Sink;
pub use texts::Texts;
pub use transfer::{read_text, write_piece};

/// Numbers of calls, counted from 0.
pub type Numbers = loc_base::Items<u64>;
