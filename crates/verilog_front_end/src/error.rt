use loc_base::Span;
use thiserror::Error;
use v_binding::BindErr;
use v_hierarchy::ElabErr;
use v_lexer::types::LexErr;
use v_tree::ParseErr;

/// Why a text means no design.
#[derive(Clone, Copy, Debug, Error)]
pub enum DesignErr {
    /// It has no tokens.
    #[error(transparent)]
    Lexical(LexErr),
    /// Its tokens have no tree.
    #[error(transparent)]
    Syntax(ParseErr),
    /// Its tree has no instances.
    #[error(transparent)]
    Elaboration(ElabErr),
    /// Its instances mean no design.
    #[error(transparent)]
    Binding(BindErr),
    /// Drivers depend on each other in a circle, the least of which has that span.
    #[error("a combinational loop: a driver that depends on itself, straight away or through others")]
    Circle(Span),
    /// Memory was refused.
    #[error("out of memory")]
    NoMemory,
}
