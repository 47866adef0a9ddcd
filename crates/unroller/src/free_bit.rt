/// A bit of a place, which is free in the cycles of a form.
#[derive(Clone, Copy, Debug, PartialEq, Eq)]
pub struct FreeBit {
    pub place: u32,
    pub bit: u8,
}
