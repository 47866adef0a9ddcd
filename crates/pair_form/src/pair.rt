use gate_base::Literal;
use loc_base::Items;

/// A place in two cycles: the literals of its operands in each, those of its bits in each, and the selectors of its groups.
pub struct Pair {
    pub operands: Items<Literal>,
    pub operands_then: Items<Literal>,
    pub bits: Items<Literal>,
    pub bits_then: Items<Literal>,
    pub groups: Items<u32>,
}

// A `drop` is written out, so that it is proved once, here: a derived one is proved again by each crate that lets a value go.
impl Drop for Pair {
    fn drop(self) {
        let Pair {
            operands: _,
            operands_then: _,
            bits: _,
            bits_then: _,
            groups: _,
        } = self;
    }
}
