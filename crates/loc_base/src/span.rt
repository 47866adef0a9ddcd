/// A part of a text: the byte offsets of its first byte and of the byte after its last, counted from 0.
#[derive(Clone, Copy, Debug, PartialEq, Eq)]
pub struct Span {
    pub from: u32,
    pub to: u32,
}
