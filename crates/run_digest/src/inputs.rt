use loc_base::{Digest, Name};

/// What a run is given: the words that choose its list, and the digests of its texts.
#[derive(Clone, Copy, Drop)]
pub struct Inputs<'a> {
    /// The module at the top.
    pub top: &'a Name,
    /// The clock, if the design has one.
    pub clock: Option<&'a Name>,
    /// The kinds of suspects, in the order in which they were asked for.
    pub kinds: &'a [Name],
    /// The most members of a set.
    pub size: u32,
    /// The digest of the design's text.
    pub design: Digest,
    /// The digest of each trace's text, in order.
    pub traces: &'a [Digest],
    /// The path of the scope that is read of each trace's text, where it is named.
    pub scope: Option<&'a Name>,
    /// Whether unknown bits of inputs are read as 0.
    pub zero_inputs: bool,
}
