//! What the form of a design is asked.

use design_core::Trace;
use front_end::Ordered;
use suspect_map::Groups;

/// A design, traces of it, and suspects.
#[derive(Drop)]
pub(super) struct Asked {
    pub(super) ready: Ordered,
    pub(super) traces: Vec<Trace>,
    pub(super) groups: Groups,
}
