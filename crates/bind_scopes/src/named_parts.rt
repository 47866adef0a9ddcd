//! What a name with its selects is assigned by, or why it can't be a left side (IEEE 1364-2005, 6.1 and 9.2.1).
ghost use Rattle.std.specs.Prelude.{◌≡◌, ◌≤◌, map, Some, Ok, IfOk, IfErr, OnOk};
ghost use Rattle.std.specs.Option.{option_and_then};
ghost use Rattle.v_syntax.specs.Tree.{tree_of, selection_of, selections_of};
ghost use Rattle.v_sizes.specs.Refusals.{is_bound};
ghost use Rattle.v_binding.specs.Uses.{meaning_of};
ghost use Rattle.v_binding.specs.Lefts.{is_constant, number_at, indexes_at, index_of, no_left_side, part_of, parts_of, name_target};
ghost use Rattle.bind_scopes.specs.Refuses.{Refuses};
ghost use Rattle.v_binding.specs.Seen.{names_in};

use crate::expressions::{by_itself, constant_at, named};
use crate::parts::{part_of, ranged_of};
use crate::unknown::has_two;
use design_core::{Node, Part, Typed};
use loc_base::{Items, Name, NoMemory, Span};
use std::alloc::Global;
use v_binding::{BindErr, Left, Names, Ranged, Use};
use v_sizes::Meaning;
use v_syntax::{Expr, PartKind, Select, Site};

/// Whether what a name stands for is a constant.
fn is_constant_meaning(meaning: Option<Meaning>) -> bool
    ensures { result ≡ is_constant meaning }
{
    match meaning {
        Some(Meaning::Constant { .. }) => true,
        Some(Meaning::Signal { .. } | Meaning::Array { .. }) | None => false,
    }
}

/// Whether a name stands for a constant.
fn is_constant(own: Option<Use>) -> bool
    ensures { result ≡ is_constant (option_and_then meaning_of own) }
{
    match own {
        Some(own) => is_constant_meaning(own.meaning()),
        None => false,
    }
}

/// Whether the first number of a part-select is a bound.
fn is_bound(kind: PartKind) -> bool
    ensures { result ≡ is_bound kind }
{
    match kind {
        PartKind::Range => true,
        PartKind::Up | PartKind::Down => false,
    }
}

/// A number in a select, by itself; `only` where constants alone may stand.
fn number_at(names: &Names<'_>, only: bool, e: &Expr) -> Result<(), BindErr>
    ensures ok { OnOk result (number_at (names_in names.now) only (tree_of e.now) ≡ Ok tt) }
    ensures err { IfErr result (λ fault. Refuses (number_at (names_in names.now) only (tree_of e.now)) fault) }
{
    if only {
        let _value = constant_at(names, e, 0)?;
    } else {
        let _value = by_itself(names, e)?;
    }
    Ok(())
}

/// The numbers in a select.
#[tactic(auto, using(v_widths::proofs::TreeSteps::select_steps))]
fn index_of(names: &Names<'_>, only: bool, select: &Select) -> Result<(), BindErr>
    ensures ok { OnOk result (index_of (names_in names.now) only (selection_of select.now) ≡ Ok tt) }
    ensures err { IfErr result (λ fault. Refuses (index_of (names_in names.now) only (selection_of select.now)) fault) }
{
    match select {
        Select::Bit { site: _, index } => number_at(names, only, index),
        Select::Part {
            site: _,
            kind,
            left,
            right,
        } => {
            number_at(names, only || is_bound(*kind), left)?;
            number_at(names, true, right)
        }
    }
}

/// The numbers in the selects, from the left.
fn indexes_at(names: &Names<'_>, only: bool, selects: &[Select]) -> Result<(), BindErr>
    ensures ok { OnOk result (indexes_at (names_in names.now) only (selections_of (map selection_of selects.now)) ≡ Ok tt) }
    ensures err { IfErr result (λ fault. Refuses (indexes_at (names_in names.now) only (selections_of (map selection_of selects.now))) fault) }
{
    for select in selects {
        index_of(names, only, select)?;
    }
    Ok(())
}

/// Why a name that stands for something is no left side.
fn use_fault(span: Span, own: Use, selects: &[Select]) -> BindErr
    ensures { result ≡ no_left_side span (Some own) (selections_of (map selection_of selects.now)) }
{
    match own {
        Use::Stands(_) => BindErr::UnknownName(span),
        Use::AtTurn(_) | Use::Outside => {
            if has_two(selects) {
                BindErr::UnknownName(span)
            } else {
                BindErr::NotConstant(span)
            }
        }
    }
}

/// Why a name is no left side.
fn no_left_side(span: Span, name: Option<Use>, selects: &[Select]) -> BindErr
    ensures { result ≡ no_left_side span name (selections_of (map selection_of selects.now)) }
{
    match name {
        Some(own) => use_fault(span, own, selects),
        None => BindErr::UnknownName(span),
    }
}

/// The parts of a word with bits beside it that it doesn't have.
#[tactic(auto, using(crate::proofs::Rows::row_laws))]
fn row_parts(alloc: Global, own: Ranged, row: Items<Typed>) -> Result<Items<Part>, NoMemory>
    ensures { IfOk result (λ parts. parts ≡ map (λ e. part_of own e.node) row) }
{
    let mut parts = Items::new(alloc);
    for typed in row.into_vec() {
        let part = part_of(alloc, own, typed.node)?;
        parts.push(part)?;
    }
    Ok(parts)
}

/// The parts of what a name is as an expression.
#[tactic(auto, using(crate::proofs::Rows::row_laws))]
fn parts_of(alloc: Global, own: Ranged, node: Node) -> Result<Items<Part>, NoMemory>
    ensures { IfOk result (λ parts. parts ≡ parts_of own node) }
{
    if let Node::Join(row) = node {
        return row_parts(alloc, own, row);
    }
    let part = part_of(alloc, own, node)?;
    let mut parts = Items::new(alloc);
    parts.push(part)?;
    Ok(parts)
}

/// The left side that a name with its selects is.
pub(crate) fn name_target(
    names: &Names<'_>,
    site: Site,
    name: &Name,
    selects: &[Select],
) -> Result<Left, BindErr>
    ensures ok { IfOk result (λ l. name_target (names_in names.now) site name.now (selections_of (map selection_of selects.now)) ≡ Ok l) }
    ensures err { IfErr result (λ fault. Refuses (name_target (names_in names.now) site name.now (selections_of (map selection_of selects.now))) fault) }
    ensures most { IfOk result (λ l. l.width ≤ 128) }
{
    let own = names.find(name);
    match ranged_of(own) {
        Some(ranged) => {
            let typed = named(names, site, name, selects)?;
            let parts = parts_of(names.allocator(), ranged, typed.node)?;
            Ok(Left {
                parts,
                width: typed.width,
                named: ranged.signal,
            })
        }
        None => {
            indexes_at(names, is_constant(own), selects)?;
            Err(no_left_side(site.span, own, selects))
        }
    }
}
