use design_core::{BinaryOp, UnaryOp};
use loc_base::Items;

/// A node that another one reads: its number, which is below that of the reader, its width in bits, and whether it is
/// read as signed.
#[derive(Clone, Copy, Debug)]
pub struct Operand {
    pub node: u32,
    pub width: u8,
    pub signed: bool,
}

/// Bits of a word by a variable index: bit `b` has the index `index + offsets[b]`. The word is declared with the range
/// `left:right` (IEEE 1364-2005, 4.3).
pub struct Select {
    pub index: Operand,
    pub left: i32,
    pub right: i32,
    pub offsets: Items<i32>,
}

/// What a node computes. The operators are those of expressions (`design_core::Node`); the others choose, move and
/// store bits.
pub enum Operation {
    /// A number.
    Const(u128),
    /// The sample of an input, by its number among the inputs.
    Input(u32),
    /// The state of a register, by its number among the states.
    State(u32),
    /// What a place assigns: the value chosen for it where it is freed, else the low bits of the computed word.
    Free {
        place: u32,
        computed: Operand,
    },
    Unary {
        op: UnaryOp,
        arg: Operand,
    },
    Binary {
        op: BinaryOp,
        left: Operand,
        right: Operand,
    },
    /// `yes` where the condition, a word of 1 bit, is 1, else `no`.
    Choose {
        cond: Operand,
        yes: Operand,
        no: Operand,
    },
    /// Two words, one above the other.
    Join {
        high: Operand,
        low: Operand,
    },
    /// A word `times` times.
    Repeat {
        times: u8,
        part: Operand,
    },
    /// A word extended by its sign, or cut, to the node's width.
    Resize(Operand),
    /// The bits of a word from position `from` on.
    Slice {
        word: Operand,
        from: u8,
    },
    /// Bits of a word by a variable index; those that the word lacks are 0.
    Pick {
        word: Operand,
        select: Select,
    },
    /// 1 where an index, by its sign, is a number, else 0.
    Is {
        index: Operand,
        number: i64,
    },
    /// `old` with its `size` bits from position `from` on replaced by those of `word` from position `offset` on.
    Put {
        old: Operand,
        from: u8,
        size: u8,
        word: Operand,
        offset: u8,
    },
    /// `old` with bits by a variable index replaced, one for each offset, by those of `word` from position `offset`
    /// on, the lowest first; what `old` lacks is stored nowhere.
    PutPick {
        old: Operand,
        select: Select,
        word: Operand,
        offset: u8,
    },
    /// The bits of `one` where the mask has 1, else those of `other`.
    Blend {
        mask: u128,
        one: Operand,
        other: Operand,
    },
}

/// A node of a net: its width, 1 to 128 bits, and what it computes.
pub struct WordNode {
    pub width: u8,
    pub operation: Operation,
}

// A `drop` is written out, so that it is proved once, here: a derived one is proved again by each crate that lets a value go.
impl Drop for Select {
    fn drop(self) {
        let Select {
            index: _,
            left: _,
            right: _,
            offsets: _,
        } = self;
    }
}

impl Drop for Operation {
    fn drop(self) {
        match self {
            Operation::Const(_)
            | Operation::Input(_)
            | Operation::State(_)
            | Operation::Resize(_) => {}
            Operation::Free {
                place: _,
                computed: _,
            } => {}
            Operation::Unary { op: _, arg: _ } => {}
            Operation::Binary {
                op: _,
                left: _,
                right: _,
            } => {}
            Operation::Choose {
                cond: _,
                yes: _,
                no: _,
            } => {}
            Operation::Join { high: _, low: _ } => {}
            Operation::Repeat { times: _, part: _ } => {}
            Operation::Slice { word: _, from: _ } => {}
            Operation::Pick { word: _, select: _ } => {}
            Operation::Is {
                index: _,
                number: _,
            } => {}
            Operation::Put {
                old: _,
                from: _,
                size: _,
                word: _,
                offset: _,
            } => {}
            Operation::PutPick {
                old: _,
                select: _,
                word: _,
                offset: _,
            } => {}
            Operation::Blend {
                mask: _,
                one: _,
                other: _,
            } => {}
        }
    }
}

impl Drop for WordNode {
    fn drop(self) {
        let WordNode {
            width: _,
            operation: _,
        } = self;
    }
}
