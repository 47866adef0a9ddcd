/// Which literal of a variable is in the set at hand: its sign, and the stamp of the set that it was marked for.
#[derive(Clone, Copy, Debug, PartialEq, Eq)]
pub(crate) struct Mark {
    pub(crate) stamp: u32,
    pub(crate) negated: bool,
}

/// The mark of a variable that is in no set.
pub(crate) const BLANK: Mark = Mark {
    stamp: 0,
    negated: false,
};
