//! Finished operands, and the selects that are made of them.
use design_core::Typed;
use loc_base::Boxed;
use v_sizes::WidthErr;
use v_syntax::PartKind;

/// An expression in a context. Where it is refused, only the width and the sign of its sized expression count, and the
/// value of a constant.
#[derive(Drop)]
pub struct Closed {
    pub typed: Typed,
    /// Whether it reads no signal.
    pub constant: bool,
    /// The fault of its leftmost part that is wrong by itself.
    pub fault: Option<WidthErr>,
}

/// A select whose indexes are finished.
#[derive(Drop)]
pub enum Picked {
    /// `[index]`
    Bit(Boxed<Closed>),
    /// `[one : other]`, `[one +: other]` or `[one -: other]`
    Part {
        kind: PartKind,
        one: Boxed<Closed>,
        other: Boxed<Closed>,
    },
}
