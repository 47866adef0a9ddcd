ghost use Rattle.std.specs.Prelude.{◌≡◌, ◌≤◌, Some};
ghost use Rattle.v_tree.specs.Operators.{unary_of, binary_of, strength, system_of, part_of};

use v_lexer::types::Terminal;
use v_syntax::{Binary, PartKind, SystemFunction, Unary};

/// The unary operator of a symbol.
pub fn unary_of(mark: Terminal) -> Option<Unary>
    ensures { result ≡ unary_of mark }
{
    match mark {
        Terminal::Plus => Some(Unary::Plus),
        Terminal::Minus => Some(Unary::Minus),
        Terminal::Bang => Some(Unary::Not),
        Terminal::Tilde => Some(Unary::Complement),
        Terminal::Ampersand => Some(Unary::And),
        Terminal::TildeAmpersand => Some(Unary::Nand),
        Terminal::Bar => Some(Unary::Or),
        Terminal::TildeBar => Some(Unary::Nor),
        Terminal::Caret => Some(Unary::Xor),
        Terminal::TildeCaret => Some(Unary::Xnor),
        _ => None,
    }
}

/// The binary operator of a symbol.
pub fn binary_of(mark: Terminal) -> Option<Binary>
    ensures { result ≡ binary_of mark }
{
    match mark {
        Terminal::StarStar => Some(Binary::Power),
        Terminal::Star => Some(Binary::Multiply),
        Terminal::Slash => Some(Binary::Divide),
        Terminal::Percent => Some(Binary::Modulus),
        Terminal::Plus => Some(Binary::Add),
        Terminal::Minus => Some(Binary::Subtract),
        Terminal::ShiftLeft => Some(Binary::ShiftLeft),
        Terminal::ShiftRight => Some(Binary::ShiftRight),
        Terminal::SignedShiftLeft => Some(Binary::SignedShiftLeft),
        Terminal::SignedShiftRight => Some(Binary::SignedShiftRight),
        Terminal::Less => Some(Binary::Less),
        Terminal::LessEqual => Some(Binary::LessEqual),
        Terminal::Greater => Some(Binary::Greater),
        Terminal::GreaterEqual => Some(Binary::GreaterEqual),
        Terminal::EqualEqual => Some(Binary::Equal),
        Terminal::BangEqual => Some(Binary::NotEqual),
        Terminal::Ampersand => Some(Binary::And),
        Terminal::Caret => Some(Binary::Xor),
        Terminal::TildeCaret => Some(Binary::Xnor),
        Terminal::Bar => Some(Binary::Or),
        Terminal::AndAnd => Some(Binary::LogicalAnd),
        Terminal::BarBar => Some(Binary::LogicalOr),
        _ => None,
    }
}

/// The level of a binary operator: the highest binds tightest.
pub fn strength(operator: Binary) -> u8
    ensures level { result ≡ strength operator }
    ensures least { 1 ≤ result }
    ensures most { result ≤ 11 }
{
    match operator {
        Binary::Power => 11,
        Binary::Multiply | Binary::Divide | Binary::Modulus => 10,
        Binary::Add | Binary::Subtract => 9,
        Binary::ShiftLeft
        | Binary::ShiftRight
        | Binary::SignedShiftLeft
        | Binary::SignedShiftRight => 8,
        Binary::Less | Binary::LessEqual | Binary::Greater | Binary::GreaterEqual => 7,
        Binary::Equal | Binary::NotEqual => 6,
        Binary::And => 5,
        Binary::Xor | Binary::Xnor => 4,
        Binary::Or => 3,
        Binary::LogicalAnd => 2,
        Binary::LogicalOr => 1,
    }
}

/// The system function of a token.
pub fn system_of(mark: Terminal) -> Option<SystemFunction>
    ensures { result ≡ system_of mark }
{
    match mark {
        Terminal::SystemSigned => Some(SystemFunction::Signed),
        Terminal::SystemUnsigned => Some(SystemFunction::Unsigned),
        Terminal::SystemClog2 => Some(SystemFunction::Clog2),
        _ => None,
    }
}

/// The way of a part-select, by the symbol between its two expressions.
pub fn part_of(mark: Terminal) -> Option<PartKind>
    ensures { result ≡ part_of mark }
{
    match mark {
        Terminal::Colon => Some(PartKind::Range),
        Terminal::PlusColon => Some(PartKind::Up),
        Terminal::MinusColon => Some(PartKind::Down),
        _ => None,
    }
}
