use loc_base::{Bits, Items};

/// A list of numbers of suspects, as the members of a set.
pub type Members = Items<u32>;

/// Values chosen for places in every cycle of some traces.
pub struct Values {
    /// The numbers of the places, ascending.
    pub places: Vec<u32>,
    /// One word for each of the places in each cycle: first all cycles of the first trace.
    pub rows: Vec<Bits>,
}

/// A set of suspects and values of its places that make every trace right.
pub struct SetWithValues {
    /// The numbers of the suspects, from 1, ascending.
    pub members: Members,
    pub values: Values,
}

// A `drop` is written out, so that it is proved once, here: a derived one is proved again by each crate that lets a value go.
impl Drop for Values {
    fn drop(self) {
        let Values { places: _, rows: _ } = self;
    }
}

impl Drop for SetWithValues {
    fn drop(self) {
        let SetWithValues {
            members: _,
            values: _,
        } = self;
    }
}
