//! Signals by their numbers (IEEE 1364-2005, 4.2 and 4.9).
use design_core::Signal;
use loc_base::Span;

/// A signal of the design.
pub struct Numbered {
    pub signal: Signal,
    /// The number of the first word of its array; its own where it is a word of none.
    pub home: u32,
    /// The name in the text that declares it.
    pub span: Span,
}

// A `drop` is written out, so that it is proved once, here.
impl Drop for Numbered {
    fn drop(self) {
        let Numbered {
            signal: _,
            home: _,
            span: _,
        } = self;
    }
}
