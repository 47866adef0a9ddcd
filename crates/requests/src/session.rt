/// The texts of a session, which a list goes on from, by their names.
#[derive(Drop)]
pub struct SessionNames {
    /// The name of its report.
    pub report: String,
    /// The name of its log.
    pub log: String,
}
