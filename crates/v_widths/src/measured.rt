//! An expression with its width and its sign, whose context is still to come (IEEE 1364-2005, 5.4 and 5.5): operands that no
//! context sizes are finished in it.
ghost use Rattle.std.specs.Prelude.{◌≡◌, IfOk};
ghost use Rattle.v_widths.specs.Measuring.{leaf_measured};

use design_core::{BinaryOp, Node, Typed, UnaryOp};
use loc_base::{Boxed, Items, NoMemory, Span};
use std::alloc::Global;
use v_selects::{Closed, Leaf};
use v_sizes::WidthErr;

/// A quotient, or a remainder, and where it stands.
#[derive(Clone, Copy)]
pub(crate) struct Division {
    pub span: Span,
    pub remainder: bool,
}

#[cycle(measured)]
#[derive(Drop)]
pub(crate) struct Measured {
    pub width: u8,
    pub signed: bool,
    /// Whether it reads no signal.
    pub constant: bool,
    pub shape: Shape,
}

#[cycle(measured)]
#[derive(Drop)]
pub(crate) enum Shape {
    /// What has its width by itself: a constant's word, else the node of its width.
    Own(Node, Option<WidthErr>),
    /// The argument of a function that changes the sign.
    Called(Boxed<Closed>),
    /// The operand by the context.
    Unary(UnaryOp, Boxed<Measured>),
    /// Both operands by the context.
    Both(BinaryOp, Boxed<Measured>, Boxed<Measured>),
    Divided(Division, Boxed<Measured>, Boxed<Measured>),
    /// The left operand by the context.
    Shifted(BinaryOp, Boxed<Measured>, Boxed<Closed>),
    /// A power: its base, the distance of its exponent from 0, and what is wrong with the exponent.
    Raised(Boxed<Measured>, u128, Option<WidthErr>),
    /// The condition, and the two arms by the context.
    Chosen(Boxed<Closed>, Boxed<Measured>, Boxed<Measured>),
}

/// What has its width by itself, measured.
pub(crate) fn leaf_measured(alloc: Global, leaf: Leaf) -> Result<Boxed<Measured>, NoMemory>
    ensures { IfOk result (λ m. m ≡ leaf_measured leaf) }
{
    let Leaf {
        width,
        signed,
        constant,
        node,
        fault,
    } = leaf;
    let measured = Measured {
        width,
        signed,
        constant,
        shape: Shape::Own(node, fault),
    };
    Boxed::new(alloc, measured)
}

/// Parts from the left, as they are joined.
#[derive(Drop)]
pub(crate) struct Parts {
    pub typed: Items<Typed>,
    /// The sum of their widths, or 1,000 where it is more.
    pub width: u16,
    pub constant: bool,
    /// The low 128 bits of the number that they are where they are constants.
    pub number: u128,
    pub fault: Option<WidthErr>,
}
