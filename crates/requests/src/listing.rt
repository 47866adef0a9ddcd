use loc_base::Name;

/// What a list is made of, how far it goes, and where it is written: of `find` and `make`.
#[derive(Drop)]
pub struct Listing {
    /// The kinds of suspects.
    pub suspects: Vec<Name>,
    /// The most members of a set, 0 to 8.
    pub size: u32,
    /// The most steps that may be learned, 1 to 10,000,000.
    pub budget: u32,
    /// The most sets that are listed, 1 to 100,000.
    pub sets: u32,
    /// How many workers check the log, 1 to 64. No answer depends on their number.
    pub workers: u32,
    /// The name of the log that is written.
    pub log: String,
    /// The name of the report that is written.
    pub report: String,
}
