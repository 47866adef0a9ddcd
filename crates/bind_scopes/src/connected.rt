//! Expressions that can be left sides: a terminal of a gate, or what an output is connected to (IEEE 1364-2005, 7.2, 12.3.9.2).
ghost use Rattle.std.specs.Prelude.{◌≡◌, ◌≤◌, map, true, is_some, Ok, IfOk, IfErr};
ghost use Rattle.v_syntax.specs.Tree.{tree_of, trees_of};
ghost use Rattle.v_binding.specs.Lefts.{nothing_named, as_left, as_lefts};
ghost use Rattle.bind_scopes.specs.Refuses.{Refuses};
ghost use Rattle.v_binding.specs.Seen.{names_in};
ghost use Rattle.bind_scopes.specs.Written.{target_in, output};
ghost use Rattle.bind_scopes.specs.TreeTargets.{target_of_tree, targets_of_trees};

use crate::left_side::{beside, nothing_named, of_width};
use crate::named_parts::name_target;
use v_binding::{BindErr, Left, Names};
use v_hierarchy::site_of;
use v_syntax::Expr;

/// Whether all expressions of a list can be left sides.
#[cycle(left_form)]
#[tactic(auto, using(crate::proofs::WrittenLefts::form_steps))]
fn are_lefts(list: &[Expr]) -> bool
    ensures { result ≡ is_some (as_lefts (trees_of (map tree_of list.now))) }
{
    for e in list {
        if !is_left(e) {
            return false;
        }
    }
    true
}

/// Whether an expression can be a left side.
#[cycle(left_form)]
#[tactic(auto, using(v_widths::proofs::TreeSteps::tree_steps))]
fn is_left(e: &Expr) -> bool
    ensures { result ≡ is_some (as_left (tree_of e.now)) }
{
    match e {
        Expr::Name { .. } => true,
        Expr::Concat { site: _, parts } => are_lefts(parts),
        Expr::Number { .. }
        | Expr::Wild { .. }
        | Expr::Parens { .. }
        | Expr::Repeat { .. }
        | Expr::System { .. }
        | Expr::Unary { .. }
        | Expr::Binary { .. }
        | Expr::Conditional { .. } => false,
    }
}

/// The left sides of a concatenation, from the left.
#[cycle(written_left)]
fn targets_of(names: &Names<'_>, list: &[Expr]) -> Result<Left, BindErr>
    ensures ok { IfOk result (λ l. targets_of_trees (names_in names.now) (trees_of (map tree_of list.now)) nothing_named ≡ Ok l) }
    ensures err { IfErr result (λ fault. Refuses (targets_of_trees (names_in names.now) (trees_of (map tree_of list.now)) nothing_named) fault) }
{
    let mut done = nothing_named(names.allocator());
    for e in list {
        let one = target_of(names, e)?;
        done = beside(names.allocator(), done, one)?;
    }
    Ok(done)
}

/// The left side of an expression that can be one; of any other it names nothing.
#[cycle(written_left)]
#[tactic(auto, using(v_widths::proofs::TreeSteps::tree_steps))]
fn target_of(names: &Names<'_>, e: &Expr) -> Result<Left, BindErr>
    ensures ok { IfOk result (λ l. target_of_tree (names_in names.now) (tree_of e.now) ≡ Ok l) }
    ensures err { IfErr result (λ fault. Refuses (target_of_tree (names_in names.now) (tree_of e.now)) fault) }
    ensures most { IfOk result (λ l. l.width ≤ 128) }
{
    match e {
        Expr::Name {
            site,
            name,
            selects,
        } => name_target(names, *site, name, selects),
        Expr::Concat { site, parts } => {
            let all = targets_of(names, parts)?;
            of_width(site.span, all)
        }
        Expr::Number { .. }
        | Expr::Wild { .. }
        | Expr::Parens { .. }
        | Expr::Repeat { .. }
        | Expr::System { .. }
        | Expr::Unary { .. }
        | Expr::Binary { .. }
        | Expr::Conditional { .. } => Ok(nothing_named(names.allocator())),
    }
}

/// The left side that an expression is, if it can be one.
#[tactic(auto, using(crate::proofs::WrittenLefts::written_lefts))]
pub fn target_in(names: &Names<'_>, e: &Expr) -> Result<Option<Left>, BindErr>
    ensures ok { IfOk result (λ found. target_in (names_in names.now) (tree_of e.now) ≡ Ok found) }
    ensures err { IfErr result (λ fault. Refuses (target_in (names_in names.now) (tree_of e.now)) fault) }
{
    if is_left(e) {
        let left = target_of(names, e)?;
        Ok(Some(left))
    } else {
        Ok(None)
    }
}

/// The left side that an output is connected to.
#[tactic(auto, using(crate::proofs::WrittenLefts::written_lefts))]
pub fn output(names: &Names<'_>, e: &Expr) -> Result<Left, BindErr>
    ensures ok { IfOk result (λ l. output (names_in names.now) (tree_of e.now) ≡ Ok l) }
    ensures err { IfErr result (λ fault. Refuses (output (names_in names.now) (tree_of e.now)) fault) }
    ensures most { IfOk result (λ l. l.width ≤ 128) }
{
    if is_left(e) {
        let left = target_of(names, e)?;
        Ok(left)
    } else {
        Err(BindErr::PortName(site_of(e).span))
    }
}
