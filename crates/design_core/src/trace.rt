use loc_base::Bits;

/// What an output is expected to be in a cycle: the bits of `value` where `mask` has a 1. The others aren't checked.
#[derive(Clone, Copy, Debug, PartialEq, Eq)]
pub struct Checked {
    pub value: Bits,
    pub mask: Bits,
}

/// A recorded trace, cycle by cycle.
pub struct Trace {
    /// The number of cycles.
    pub cycles: u32,
    /// One word for each input in each cycle: first all of cycle 0, in the order of the design's inputs.
    pub inputs: Vec<Bits>,
    /// One entry for each output in each cycle: first all of cycle 0, in the order of the design's outputs.
    pub expected: Vec<Checked>,
}

// A `drop` is written out, so that it is proved once, here: a derived one is proved again by each crate that lets a value go.
impl Drop for Trace {
    fn drop(self) {
        let Trace {
            cycles: _,
            inputs: _,
            expected: _,
        } = self;
    }
}
