use design_core::types::Order;
use design_core::{Design, Trace};

/// What the values of sets are tried on: a design, an order in which its cycles can be computed, and traces of it.
#[derive(Drop)]
pub struct Trial<'a> {
    pub design: &'a Design,
    pub order: &'a Order,
    pub traces: &'a [Trace],
}

/// So many sets from one number on.
#[derive(Clone, Copy)]
pub(crate) struct Piece {
    pub(crate) from: usize,
    pub(crate) many: usize,
}
