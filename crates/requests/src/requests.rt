//! The request of each command.
use crate::help::HelpRequest;
use crate::listing::Listing;
use crate::session::SessionNames;
use crate::sources::Reading;
use crate::texts::Texts;

/// What `find` is asked.
#[derive(Drop)]
pub struct FindRequest {
    pub reading: Reading,
    pub listing: Listing,
    /// The session that the list goes on from, if it goes on from one.
    pub resume: Option<SessionNames>,
    /// The prefix of the waves' names, where waves are asked for: that of set S and trace T is `P-S-T.vcd`.
    pub waves: Option<String>,
    /// The prefix of the checkpoints' names, where they are asked for: `P-1.log` and `P-1.json`, and in turn `P-2.log` and `P-2.json`.
    pub checkpoints: Option<String>,
}

/// What `sim` is asked.
#[derive(Drop)]
pub struct SimRequest {
    pub reading: Reading,
    /// Whether the status says that a trace isn't right.
    pub exit_code: bool,
}

/// What `check` is asked. The clock, the kinds of suspects and the size are the report's.
#[derive(Drop)]
pub struct CheckRequest {
    pub texts: Texts,
    /// The name of the report.
    pub report: String,
    /// The name of the log.
    pub log: String,
    /// How many workers read and check the log, 1 to 64. No answer depends on their number.
    pub workers: u32,
}

/// What `make` is asked.
#[derive(Drop)]
pub struct MakeRequest {
    /// The number of the input that is made, 0 to 9999.
    pub number: u32,
    /// The name of the design's text.
    pub design: String,
    /// The name of the trace's text.
    pub trace: String,
    pub listing: Listing,
}

/// A command, with what it is asked.
#[derive(Drop)]
pub enum Request {
    Find(FindRequest),
    Sim(SimRequest),
    Check(CheckRequest),
    Make(MakeRequest),
    Help(HelpRequest),
}
