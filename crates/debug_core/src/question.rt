use design_core::types::Order;
use design_core::{Design, Trace};
use suspect_map::Groups;

/// What is asked: which sets of at most `k` of the suspects can explain the traces.
#[derive(Clone, Copy)]
pub struct Question<'a> {
    pub design: &'a Design,
    /// An order of the design's drivers.
    pub order: &'a Order,
    pub traces: &'a [Trace],
    /// The suspects, numbered from 1: each is a group of places of the design.
    pub groups: &'a Groups,
    /// The greatest size of a set, at most 8.
    pub k: u32,
}
