//! Whether a place stands in a statement.

ghost use Rattle.std.specs.Prelude.{◌≡◌};
ghost use Rattle.std.specs.List.{list_any};
ghost use Rattle.changes.specs.Lists.{item_stands, stands_in};

use design_core::{CaseItem, Stmt};

/// Whether a place stands in a statement.
#[cycle(has)]
pub(crate) fn has_place(place: u32, statement: &Stmt) -> bool
    ensures { result ≡ stands_in place statement.now }
{
    match statement {
        Stmt::Nothing => false,
        Stmt::Block(statements) => some_has_place(place, statements),
        Stmt::If { yes, no, .. } => has_place(place, yes) | has_place(place, no),
        Stmt::Case { items, other, .. } => item_has_place(place, items) || has_place(place, other),
        Stmt::Set { place: own, .. } => *own == place,
    }
}

#[cycle(has)]
fn some_has_place(place: u32, statements: &[Stmt]) -> bool
    ensures { result ≡ list_any (stands_in place) statements.now }
{
    for statement in statements {
        if has_place(place, statement) {
            return true;
        }
    }
    false
}

#[cycle(has)]
fn item_has_place(place: u32, items: &[CaseItem]) -> bool
    ensures { result ≡ list_any (item_stands place) items.now }
{
    for item in items {
        if has_place(place, &item.body) {
            return true;
        }
    }
    false
}
