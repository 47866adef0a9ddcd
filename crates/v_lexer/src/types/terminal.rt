/// What a token is to the grammar, or that there is none (IEEE 1364-2005, clause 3 and annex B).
#[derive(Clone, Copy, PartialEq, Eq)]
pub enum Terminal {
    /// No token: the place behind the last one.
    Nothing,
    Name,
    Number,
    /// A number with wildcard digits.
    Wild,
    /// A reserved word that the grammar doesn't use.
    Refused,
    /// `+`
    Plus,
    /// `-`
    Minus,
    /// `*`
    Star,
    /// `/`
    Slash,
    /// `%`
    Percent,
    /// `**`
    StarStar,
    /// `!`
    Bang,
    /// `~`
    Tilde,
    /// `&`
    Ampersand,
    /// `~&`
    TildeAmpersand,
    /// `|`
    Bar,
    /// `~|`
    TildeBar,
    /// `^`
    Caret,
    /// `~^` or `^~`
    TildeCaret,
    /// `&&`
    AndAnd,
    /// `||`
    BarBar,
    /// `<<`
    ShiftLeft,
    /// `>>`
    ShiftRight,
    /// `<<<`
    SignedShiftLeft,
    /// `>>>`
    SignedShiftRight,
    /// `<`
    Less,
    /// `<=`
    LessEqual,
    /// `>`
    Greater,
    /// `>=`
    GreaterEqual,
    /// `==`
    EqualEqual,
    /// `!=`
    BangEqual,
    /// `(`
    Open,
    /// `)`
    Close,
    /// `[`
    OpenBracket,
    /// `]`
    CloseBracket,
    /// `{`
    OpenBrace,
    /// `}`
    CloseBrace,
    /// `;`
    Semicolon,
    /// `:`
    Colon,
    /// `,`
    Comma,
    /// `.`
    Dot,
    /// `#`
    Hash,
    /// `@`
    At,
    /// `?`
    Question,
    /// `=`
    Equals,
    /// `+:`
    PlusColon,
    /// `-:`
    MinusColon,
    /// `$signed`
    SystemSigned,
    /// `$unsigned`
    SystemUnsigned,
    /// `$clog2`
    SystemClog2,
    /// `always`
    Always,
    /// `and`
    And,
    /// `assign`
    Assign,
    /// `begin`
    Begin,
    /// `buf`
    Buf,
    /// `case`
    Case,
    /// `casez`
    Casez,
    /// `default`
    Default,
    /// `else`
    Else,
    /// `end`
    End,
    /// `endcase`
    Endcase,
    /// `endgenerate`
    Endgenerate,
    /// `endmodule`
    Endmodule,
    /// `for`
    For,
    /// `generate`
    Generate,
    /// `genvar`
    Genvar,
    /// `if`
    If,
    /// `initial`
    Initial,
    /// `input`
    Input,
    /// `integer`
    Integer,
    /// `localparam`
    Localparam,
    /// `module`
    Module,
    /// `nand`
    Nand,
    /// `negedge`
    Negedge,
    /// `nor`
    Nor,
    /// `not`
    Not,
    /// `or`
    Or,
    /// `output`
    Output,
    /// `parameter`
    Parameter,
    /// `posedge`
    Posedge,
    /// `reg`
    Reg,
    /// `signed`
    Signed,
    /// `wire`
    Wire,
    /// `xnor`
    Xnor,
    /// `xor`
    Xor,
}
