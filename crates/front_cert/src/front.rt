use clause_base::Log;

/// A list's last set, with the log that is to show that none is missing before it.
#[derive(Clone, Copy)]
pub struct Front<'a> {
    /// The members of the list's last set, ascending numbers from 1 to `n`; none where the list has no set.
    pub last: &'a [u32],
    /// How many suspects there are.
    pub n: u32,
    /// The most members of a set.
    pub k: u32,
    pub log: &'a Log,
}
