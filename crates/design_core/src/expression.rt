use loc_base::{Bits, Boxed, Items};

/// A unary operator (IEEE 1364-2005, Table 5-1).
#[derive(Clone, Copy, Debug, PartialEq, Eq)]
pub enum UnaryOp {
    Plus,
    Minus,
    LogicalNot,
    Not,
    ReduceAnd,
    ReduceNand,
    ReduceOr,
    ReduceNor,
    ReduceXor,
    /// `~^` and `^~`.
    ReduceXnor,
}

/// A binary operator (IEEE 1364-2005, Table 5-1). `/`, `%` and `**` stand in constants alone, and are none here.
#[derive(Clone, Copy, Debug, PartialEq, Eq)]
pub enum BinaryOp {
    Add,
    Subtract,
    Multiply,
    And,
    Or,
    Xor,
    /// `~^` and `^~`.
    Xnor,
    ShiftLeft,
    ShiftRight,
    ArithmeticShiftLeft,
    ArithmeticShiftRight,
    Less,
    LessEqual,
    Greater,
    GreaterEqual,
    Equal,
    NotEqual,
    LogicalAnd,
    LogicalOr,
}

/// An expression with the width and the sign that its context gives it (IEEE 1364-2005, 5.4 and 5.5).
#[cycle(expression)]
#[derive(Drop)]
pub struct Typed {
    /// 1 to 128 bits.
    pub width: u8,
    pub signed: bool,
    pub node: Node,
}

/// What a sized expression is made of. Operands whose width the context decides have the node's width already.
#[cycle(expression)]
#[derive(Drop)]
pub enum Node {
    Const(Bits),
    /// All bits of a signal.
    Whole(u32),
    /// `width` bits of a signal from position `from` on.
    Slice {
        signal: u32,
        from: u8,
        width: u8,
    },
    /// Bits of a signal by a variable index: bit `b` has the index `index + offsets[b]`.
    Pick {
        signal: u32,
        index: Boxed<Typed>,
        offsets: Items<i32>,
    },
    /// `width` bits, from position `from` on, of the word of an array at a variable address. The words are the
    /// `count` signals from `first` on, at the addresses from `low` on.
    Word {
        first: u32,
        count: u32,
        low: i32,
        index: Boxed<Typed>,
        from: u8,
        width: u8,
    },
    Unary {
        op: UnaryOp,
        arg: Boxed<Typed>,
    },
    Binary {
        op: BinaryOp,
        left: Boxed<Typed>,
        right: Boxed<Typed>,
    },
    /// `cond ? yes : no`.
    Choose {
        cond: Boxed<Typed>,
        yes: Boxed<Typed>,
        no: Boxed<Typed>,
    },
    /// A concatenation, its parts from the left.
    Join(Items<Typed>),
    /// A replication: the part `times` times.
    Repeat {
        times: u8,
        part: Boxed<Typed>,
    },
    /// The argument extended by its own sign, or cut, to the node's width.
    Resize(Boxed<Typed>),
}
