//! Whether a statement is one of the values of a reset (IEEE 1364.1-2002, 5.2.2.1).
ghost use Rattle.std.specs.Prelude.{◌≡◌};
ghost use Rattle.std.specs.List.{list_all};
ghost use Rattle.design_core.specs.Constant.{is_constant};
ghost use Rattle.design_core.specs.WellFormed.{is_fixed, is_reset_values};

use design_core::{Node, Part, Stmt};

/// Whether an expression is a constant, or one carried to another width.
fn is_constant(node: &Node) -> bool
    ensures { result ≡ is_constant node.now }
{
    match node {
        Node::Const(_) => true,
        Node::Resize(arg) => is_constant(&arg.node),
        _ => false,
    }
}

/// Whether a part of a left side has no variable index.
fn is_fixed(part: &Part) -> bool
    ensures { result ≡ is_fixed part.now }
{
    match part {
        Part::Whole(_) | Part::Slice { .. } => true,
        Part::Pick { index, .. } => is_constant(&index.node),
        Part::Word { .. } => false,
    }
}

/// Whether no part of a left side has a variable index.
fn are_fixed(parts: &[Part]) -> bool
    ensures { result ≡ list_all is_fixed parts.now }
{
    parts.iter().all(|part| is_fixed(part))
}

/// Whether a statement assigns constants alone, without conditions, to left sides without variable indexes.
#[cycle(values)]
pub fn is_reset_values(statement: &Stmt) -> bool
    ensures { result ≡ is_reset_values statement.now }
{
    match statement {
        Stmt::Nothing => true,
        Stmt::Block(statements) => are_reset_values(statements),
        Stmt::If { .. } | Stmt::Case { .. } => false,
        Stmt::Set { target, value, .. } => is_constant(&value.node) && are_fixed(&target.parts),
    }
}

#[cycle(values)]
fn are_reset_values(statements: &[Stmt]) -> bool
    ensures { result ≡ list_all is_reset_values statements.now }
{
    for statement in statements {
        if !is_reset_values(statement) {
            return false;
        }
    }
    true
}
