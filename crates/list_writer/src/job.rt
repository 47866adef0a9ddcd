use debug_core::Question;
use design_core::SetWithValues;
use loc_base::{Digest, Name};

/// What a listing is asked, but for the session that it goes on from.
#[derive(Clone, Copy)]
pub struct Job<'a> {
    pub question: Question<'a>,
    /// The most steps that may be learned, beside those of a session.
    pub budget: u32,
    /// The most sets that may be found, beside those of a session.
    pub sets: u32,
    /// The name of the log.
    pub log: &'a str,
    /// The name of the report.
    pub report: &'a str,
    /// The prefix of the waves' names, where waves are asked for: set S and trace T have `P-S-T.vcd`.
    pub waves: Option<&'a str>,
    /// The prefix of the checkpoints' names, where they are asked for: `P-1.log` and `P-1.json`, and in turn `P-2.log` and `P-2.json`.
    pub checkpoints: Option<&'a str>,
    /// The digest of the inputs.
    pub inputs: Digest,
    /// The module that is the top, the clock, and the kinds of suspects, as the report repeats them.
    pub top: &'a Name,
    pub clock: Option<&'a Name>,
    pub kinds: &'a [Name],
}

/// A listing that is to be done: what is asked, and what searches for its sets.
///
/// Where it goes on from a session, the log of the search has the session's steps.
#[derive(Drop)]
pub struct Task<'a, D> {
    pub job: Job<'a>,
    pub search: D,
    /// The sets of the session, none where it goes on from none.
    pub found: Vec<SetWithValues>,
}
