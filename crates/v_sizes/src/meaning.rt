use loc_base::Bits;

/// A constant: its bits, and whether they are read as two's complement.
#[derive(Clone, Copy, Debug, PartialEq, Eq)]
pub struct Const {
    pub bits: Bits,
    pub signed: bool,
}

/// What a name stands for in its scope.
#[derive(Clone, Copy, Debug, PartialEq, Eq)]
pub enum Meaning {
    /// A parameter, or a variable of a loop at one turn, with the indexes of its leftmost and rightmost bit.
    Constant {
        value: Const,
        left: i32,
        right: i32,
    },
    /// The signal of a number, with its width and the indexes of its leftmost and rightmost bit.
    Signal {
        signal: u32,
        width: u8,
        signed: bool,
        left: i32,
        right: i32,
    },
    /// An array (4.9): its words are the `count` signals from `first` on, at the addresses from `low` on, each with the
    /// width, the sign and the range that is given.
    Array {
        first: u32,
        count: u32,
        low: i32,
        width: u8,
        signed: bool,
        left: i32,
        right: i32,
    },
}
