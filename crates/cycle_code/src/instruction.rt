use design_core::{BinaryOp, UnaryOp};

/// One step of a run. Operands are cells by their numbers, and `to` is the cell that is written. `next` is the number at which
/// the run goes on where the instruction jumps.
///
/// The commonest operators have instructions of their own, from `Add` to `Unlike`, which run without a look at an operator. They
/// take no signs: at the widths that these operators have, signs change nothing.
#[derive(Clone, Copy)]
pub enum Instruction {
    Jump {
        next: u32,
    },
    /// Jumps where the cell is not 0.
    JumpIf {
        cond: u32,
        next: u32,
    },
    /// Jumps where the cell is 0.
    JumpUnless {
        cond: u32,
        next: u32,
    },
    /// Jumps where the two cells hold one number.
    JumpEqual {
        left: u32,
        right: u32,
        next: u32,
    },
    /// Jumps where the two cells hold different numbers.
    JumpUnlike {
        left: u32,
        right: u32,
        next: u32,
    },
    /// Jumps unless the subject is equal to the label outside the bits that are 1 in `wild` (IEEE 1364-2005, 9.5). The three
    /// cells have one width.
    JumpNoMatch {
        subject: u32,
        label: u32,
        wild: u32,
        next: u32,
    },
    /// A copy between cells of one width.
    Move {
        from: u32,
        to: u32,
    },
    /// `width` bits of a cell from position `from` on.
    Slice {
        arg: u32,
        from: u8,
        width: u8,
        to: u32,
    },
    /// Two cells, one above the other.
    Join {
        high: u32,
        low: u32,
        to: u32,
    },
    /// A cell `times` times, one above the other.
    Repeat {
        times: u8,
        part: u32,
        to: u32,
    },
    /// A cell extended, by its sign where it is signed, or cut, to the width of `to`.
    Resize {
        arg: u32,
        signed: bool,
        to: u32,
    },
    Unary {
        op: UnaryOp,
        arg: u32,
        to: u32,
    },
    Binary {
        op: BinaryOp,
        left: u32,
        left_signed: bool,
        right: u32,
        right_signed: bool,
        to: u32,
    },
    /// The sum of two cells modulo 2^width. The three cells have one width.
    Add {
        left: u32,
        right: u32,
        to: u32,
    },
    /// The difference of two cells modulo 2^width. The three cells have one width.
    Subtract {
        left: u32,
        right: u32,
        to: u32,
    },
    /// 1 in each place where both cells have 1. The three cells have one width.
    And {
        left: u32,
        right: u32,
        to: u32,
    },
    /// 1 in each place where one of the cells has 1. The three cells have one width.
    Or {
        left: u32,
        right: u32,
        to: u32,
    },
    /// 1 in each place where exactly one of the cells has 1. The three cells have one width.
    Xor {
        left: u32,
        right: u32,
        to: u32,
    },
    /// 1 in each place where the cell has 0. The two cells have one width.
    Not {
        arg: u32,
        to: u32,
    },
    /// 1 where two cells of one width hold one number, else 0, into a cell of 1 bit.
    Equal {
        left: u32,
        right: u32,
        to: u32,
    },
    /// 1 where two cells of one width hold different numbers, else 0, into a cell of 1 bit.
    Unlike {
        left: u32,
        right: u32,
        to: u32,
    },
    /// The value of any expression, by its number among the trees.
    Value {
        tree: u32,
        to: u32,
    },
    /// What a place assigns, cut or extended by zeros to the width of `to`.
    Set {
        place: u32,
        value: u32,
        to: u32,
    },
    /// A cell, cut or extended by zeros to the width of `to`. Unlike `Resize` this may write a signal's cell.
    Put {
        value: u32,
        to: u32,
    },
    /// What a place assigns, into any left side, by its number among the targets: into the words of later updates where
    /// `later` is true, else into those that are read.
    Assign {
        target: u32,
        place: u32,
        value: u32,
        later: bool,
    },
    /// The same of a left side without a place, which takes the value as it is.
    Store {
        target: u32,
        value: u32,
        later: bool,
    },
}
