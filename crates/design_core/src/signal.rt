use loc_base::{Bits, Name};

/// What a signal is (IEEE 1364-2005, 4.2 and 12.3).
#[derive(Clone, Copy, Debug, PartialEq, Eq)]
pub enum SignalKind {
    /// An input of the top module. The clock is one.
    Input,
    /// A net, which drivers give its value.
    Net,
    /// A variable. The bits of it that no driver drives are registers.
    Reg,
}

/// A signal of the elaborated design, with a bit at each position from 0 to `width - 1`.
///
/// Position 0 is the bit that is declared rightmost: it has the index `right`, and `left` is the index of the bit
/// at position `width - 1` (IEEE 1364-2005, 4.3). An array is one `Reg` signal for each of its words.
pub struct Signal {
    pub path: Name,
    pub width: u8,
    pub signed: bool,
    pub left: i32,
    pub right: i32,
    pub kind: SignalKind,
    /// The value that a register has before the first cycle.
    pub start: Bits,
}

// A `drop` is written out, so that it is proved once, here: a derived one is proved again by each crate that lets a value go.
impl Drop for Signal {
    fn drop(self) {
        let Signal {
            path: _,
            width: _,
            signed: _,
            left: _,
            right: _,
            kind: _,
            start: _,
        } = self;
    }
}
