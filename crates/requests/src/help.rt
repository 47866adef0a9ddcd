/// A page of help.
#[derive(Clone, Copy)]
pub enum HelpPage {
    /// All commands, and the statuses.
    Overview,
    /// The arguments of `find`.
    Find,
    /// The arguments of `sim`.
    Sim,
    /// The arguments of `check`.
    Check,
    /// The arguments of `make`.
    Make,
    /// The versions of what is written.
    Version,
}

/// What `help` is asked.
#[derive(Clone, Copy)]
pub struct HelpRequest {
    pub page: HelpPage,
}
