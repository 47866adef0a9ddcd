//! The types of a report.

ghost use Rattle.std.specs.Prelude.{◌≡◌};
ghost use Rattle.report_doc.specs.declared.types.ReportErr.TheVariants.{NoMemory as WantOfMemory};

use crate::cycle_texts::CycleTexts;
use design_core::Members;
use loc_base::{Digest, Items, Name, NoMemory};
use thiserror::Error;

/// How a list ended.
#[derive(Clone, Copy, Debug, PartialEq, Eq)]
pub enum Ending {
    /// It is whole.
    Complete,
    /// The budget was spent.
    Budget,
    /// As many sets were found as were asked for.
    Sets,
    /// A set was found that comes before the last of a session.
    Earlier,
}

/// A set of a list.
pub struct ReportSet {
    /// The numbers of its suspects.
    pub members: Members,
    /// For each trace the texts of its cycles: a text of hex digits for each place.
    pub values: Items<CycleTexts>,
}

impl Drop for ReportSet {
    fn drop(self) {
        let ReportSet {
            members: _,
            values: _,
        } = self;
    }
}

/// What is said of a suspect.
pub struct ReportSuspect {
    pub kind: Name,
    pub label: Name,
    pub line: u32,
}

impl Drop for ReportSuspect {
    fn drop(self) {
        let ReportSuspect {
            kind: _,
            label: _,
            line: _,
        } = self;
    }
}

/// What a run found, and for which inputs.
pub struct Report {
    pub clock: Option<Name>,
    pub ending: Ending,
    /// The digest of the inputs.
    pub inputs: Digest,
    /// The kinds of suspects.
    pub kinds: Items<Name>,
    pub sets: Items<ReportSet>,
    /// The most members of a set.
    pub size: u32,
    pub suspects: Items<ReportSuspect>,
    pub top: Name,
}

impl Drop for Report {
    fn drop(self) {
        let Report {
            clock: _,
            ending: _,
            inputs: _,
            kinds: _,
            sets: _,
            size: _,
            suspects: _,
            top: _,
        } = self;
    }
}

/// Why a text wasn't read as a report.
#[derive(Clone, Copy, Debug, PartialEq, Eq, Error)]
pub enum ReportErr {
    /// The text isn't JSON.
    #[error("the report isn't JSON")]
    Syntax,
    /// It is JSON of another shape than a report's.
    #[error("the report is JSON of another shape")]
    Shape,
    #[error("out of memory")]
    NoMemory,
}

impl From<NoMemory> for ReportErr {
    ghost from_gives = { λ _ e. e ≡ WantOfMemory };

    fn from(_want: NoMemory) -> ReportErr {
        ReportErr::NoMemory
    }
}
