use crate::listed::SignalBits;

/// Bits that each of some paths assigns: all where there was no path yet, else listed ones.
#[derive(Drop)]
pub(crate) struct Shared {
    pub(crate) every: bool,
    pub(crate) list: Vec<SignalBits>,
}
