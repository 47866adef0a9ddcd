//! Where the expressions of a text stand.
ghost use Rattle.std.specs.Prelude.{◌≡◌};
ghost use Rattle.v_syntax.specs.Tree.{tree_of};
ghost use Rattle.v_hierarchy.specs.Constants.{site_of};

use v_syntax::{Expr, Site};

/// Where an expression stands.
pub fn site_of(e: &Expr) -> Site
    ensures { result ≡ site_of (tree_of e.now) }
{
    match e {
        Expr::Number { site, .. }
        | Expr::Wild { site, .. }
        | Expr::Name { site, .. }
        | Expr::Parens { site, .. }
        | Expr::Concat { site, .. }
        | Expr::Repeat { site, .. }
        | Expr::System { site, .. }
        | Expr::Unary { site, .. }
        | Expr::Binary { site, .. }
        | Expr::Conditional { site, .. } => *site,
    }
}
