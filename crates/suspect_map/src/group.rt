use loc_base::{Items, Name};

/// One suspect: some places that are chosen together or not at all.
pub struct Group {
    /// The name of the granularity that made it.
    pub kind: Name,
    /// What is printed for it: a module's name or a path.
    pub label: Name,
    /// The numbers of its places, ascending.
    pub places: Items<u32>,
}

impl Drop for Group {
    fn drop(self) {
        let Group {
            kind: _,
            label: _,
            places: _,
        } = self;
    }
}

/// The suspects, numbered from 1.
pub type Groups = Items<Group>;
