use design_core::{Design, Trace};
use suspect_map::Groups;

/// What sets are of: a design, traces of it, and its suspects, which are numbered from 1.
#[derive(Clone, Copy)]
pub struct Scene<'a> {
    pub design: &'a Design,
    pub traces: &'a [Trace],
    pub groups: &'a Groups,
}
