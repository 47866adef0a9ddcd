use loc_base::Span;

/// Where a node of the tree stands.
#[derive(Clone, Copy, PartialEq, Eq)]
pub struct Site {
    /// From the first byte of its first token to the last byte of its last token.
    pub span: Span,
    /// The number of its first token, counted from 0.
    pub token: u32,
    /// The line of its first token.
    pub line: u32,
}
