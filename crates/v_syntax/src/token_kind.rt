/// What a token is (IEEE 1364-2005, 3.1).
#[derive(Clone, Copy, Debug, PartialEq, Eq)]
pub enum TokenKind {
    /// A simple or an escaped identifier.
    Name,
    /// A reserved word.
    Word,
    /// The name of a system function.
    System,
    /// An operator or a mark of punctuation.
    Symbol,
    /// A number without wildcard digits.
    Number,
    /// A number with wildcard digits, as the labels of a `casez` have.
    Wild,
}
