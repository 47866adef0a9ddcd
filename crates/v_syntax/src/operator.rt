/// A unary operator (IEEE 1364-2005, 5.1).
#[derive(Clone, Copy, PartialEq, Eq)]
pub enum Unary {
    /// `+`
    Plus,
    /// `-`
    Minus,
    /// `!`
    Not,
    /// `~`
    Complement,
    /// `&`
    And,
    /// `~&`
    Nand,
    /// `|`
    Or,
    /// `~|`
    Nor,
    /// `^`
    Xor,
    /// `~^` or `^~`
    Xnor,
}

/// A binary operator (IEEE 1364-2005, 5.1).
#[derive(Clone, Copy, PartialEq, Eq)]
pub enum Binary {
    /// `**`
    Power,
    /// `*`
    Multiply,
    /// `/`
    Divide,
    /// `%`
    Modulus,
    /// `+`
    Add,
    /// `-`
    Subtract,
    /// `<<`
    ShiftLeft,
    /// `>>`
    ShiftRight,
    /// `<<<`
    SignedShiftLeft,
    /// `>>>`
    SignedShiftRight,
    /// `<`
    Less,
    /// `<=`
    LessEqual,
    /// `>`
    Greater,
    /// `>=`
    GreaterEqual,
    /// `==`
    Equal,
    /// `!=`
    NotEqual,
    /// `&`
    And,
    /// `^`
    Xor,
    /// `^~` or `~^`
    Xnor,
    /// `|`
    Or,
    /// `&&`
    LogicalAnd,
    /// `||`
    LogicalOr,
}

/// A system function (IEEE 1364-2005, 17.7 and 17.11).
#[derive(Clone, Copy, PartialEq, Eq)]
pub enum SystemFunction {
    /// `$signed`
    Signed,
    /// `$unsigned`
    Unsigned,
    /// `$clog2`
    Clog2,
}
