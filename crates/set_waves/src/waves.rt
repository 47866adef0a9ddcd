//! What the waves are of.
use design_core::types::Order;
use design_core::{Design, Trace};
use loc_base::Name;

/// What the waves of sets are of, and the prefix of their names.
#[derive(Clone, Copy)]
pub struct Waves<'a> {
    /// The name of the top module.
    pub top: &'a Name,
    pub design: &'a Design,
    /// An order of the design's drivers.
    pub order: &'a Order,
    /// The name of the clock, where the design has one.
    pub clock: Option<&'a Name>,
    pub traces: &'a [Trace],
    /// The wave of set S and trace T has the name `P-S-T.vcd`, P being the prefix.
    pub prefix: &'a str,
}
