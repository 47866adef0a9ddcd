//! Which bits of a variable are a port's.

/// Which bits of a variable are a port's: all, or the one that has a number, from the lowest, of so many.
#[derive(Clone, Copy)]
pub enum Part {
    Whole,
    Bit { number: u8, size: u8 },
}
