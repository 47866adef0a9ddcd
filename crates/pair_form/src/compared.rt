use loc_base::Items;

/// A bit of an output: the output's number, and the bit's position from 0.
#[derive(Clone, Copy, Debug, PartialEq, Eq)]
pub struct OutputBit {
    pub output: u32,
    pub position: u8,
}

/// A place whose bits are to be the same in any two cycles in which its operands are: so many bits, and the bits of outputs that
/// are the operands.
pub struct Compared {
    pub place: u32,
    pub width: u8,
    pub operands: Items<OutputBit>,
}

// A `drop` is written out, so that it is proved once, here: a derived one is proved again by each crate that lets a value go.
impl Drop for Compared {
    fn drop(self) {
        let Compared {
            place: _,
            width: _,
            operands: _,
        } = self;
    }
}
