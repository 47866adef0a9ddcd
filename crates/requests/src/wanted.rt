use crate::sources::Sources;
use loc_base::Name;

/// What a list is asked of: what is read, and which sets of which suspects.
#[derive(Clone, Copy, Drop)]
pub struct Wanted<'a> {
    pub sources: Sources<'a>,
    /// The kinds of suspects.
    pub suspects: &'a [Name],
    /// The most members of a set, 0 to 8.
    pub size: u32,
}
