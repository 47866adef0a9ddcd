//! Left sides (IEEE 1364-2005, 6.1, 9.2.1 and 9.2.2).
use design_core::Part;
use loc_base::Items;

/// A left side.
pub struct Left {
    /// From the left.
    pub parts: Items<Part>,
    /// 1 to 128 bits of a whole left side.
    pub width: u8,
    /// The first signal that it names, for an array that of the least address.
    pub named: u32,
}

// A `drop` is written out, so that it is proved once, here.
impl Drop for Left {
    fn drop(self) {
        let Left {
            parts: _,
            width: _,
            named: _,
        } = self;
    }
}

/// A signal with its range; of an array the word of the least address.
#[derive(Clone, Copy)]
pub struct Ranged {
    pub signal: u32,
    pub left: i32,
    pub right: i32,
}
