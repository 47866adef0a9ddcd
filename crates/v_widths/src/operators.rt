//! How an operator of the text takes its operands (IEEE 1364-2005, Table 5-22).
ghost use Rattle.std.specs.Prelude.{◌≡◌};
ghost use Rattle.v_sizes.specs.Operations.{class_of, keeps_width, unary_of};
ghost use Rattle.v_widths.specs.Takings.{class_in};

use design_core::{BinaryOp, UnaryOp};
use v_syntax::{Binary, Unary};

pub(crate) fn unary_of(op: Unary) -> UnaryOp
    ensures { result ≡ unary_of op }
{
    match op {
        Unary::Plus => UnaryOp::Plus,
        Unary::Minus => UnaryOp::Minus,
        Unary::Not => UnaryOp::LogicalNot,
        Unary::Complement => UnaryOp::Not,
        Unary::And => UnaryOp::ReduceAnd,
        Unary::Nand => UnaryOp::ReduceNand,
        Unary::Or => UnaryOp::ReduceOr,
        Unary::Nor => UnaryOp::ReduceNor,
        Unary::Xor => UnaryOp::ReduceXor,
        Unary::Xnor => UnaryOp::ReduceXnor,
    }
}

/// Whether the context sizes the operand.
pub(crate) fn keeps_width(op: Unary) -> bool
    ensures { result ≡ keeps_width op }
{
    matches!(op, Unary::Plus | Unary::Minus | Unary::Complement)
}

/// How an operator takes its two operands.
#[derive(Clone, Copy)]
pub(crate) enum Taking {
    /// Both are sized by the context.
    ByContext(BinaryOp),
    /// The left one is sized by the context, the right one by itself.
    Shift(BinaryOp),
    /// Both are sized to the larger of the two.
    Comparison(BinaryOp),
    /// Both are sized by themselves.
    Logical(BinaryOp),
    Quotient,
    Remainder,
    /// The exponent is sized by itself.
    Power,
}

pub(crate) fn taking_of(op: Binary) -> Taking
    ensures { class_in result ≡ class_of op }
{
    match op {
        Binary::Power => Taking::Power,
        Binary::Multiply => Taking::ByContext(BinaryOp::Multiply),
        Binary::Divide => Taking::Quotient,
        Binary::Modulus => Taking::Remainder,
        Binary::Add => Taking::ByContext(BinaryOp::Add),
        Binary::Subtract => Taking::ByContext(BinaryOp::Subtract),
        Binary::ShiftLeft => Taking::Shift(BinaryOp::ShiftLeft),
        Binary::ShiftRight => Taking::Shift(BinaryOp::ShiftRight),
        Binary::SignedShiftLeft => Taking::Shift(BinaryOp::ArithmeticShiftLeft),
        Binary::SignedShiftRight => Taking::Shift(BinaryOp::ArithmeticShiftRight),
        Binary::Less => Taking::Comparison(BinaryOp::Less),
        Binary::LessEqual => Taking::Comparison(BinaryOp::LessEqual),
        Binary::Greater => Taking::Comparison(BinaryOp::Greater),
        Binary::GreaterEqual => Taking::Comparison(BinaryOp::GreaterEqual),
        Binary::Equal => Taking::Comparison(BinaryOp::Equal),
        Binary::NotEqual => Taking::Comparison(BinaryOp::NotEqual),
        Binary::And => Taking::ByContext(BinaryOp::And),
        Binary::Xor => Taking::ByContext(BinaryOp::Xor),
        Binary::Xnor => Taking::ByContext(BinaryOp::Xnor),
        Binary::Or => Taking::ByContext(BinaryOp::Or),
        Binary::LogicalAnd => Taking::Logical(BinaryOp::LogicalAnd),
        Binary::LogicalOr => Taking::Logical(BinaryOp::LogicalOr),
    }
}
