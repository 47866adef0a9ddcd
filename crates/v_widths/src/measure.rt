//! The pass up: the width and the sign that an expression has by itself (IEEE 1364-2005, 5.4.1 and 5.5.1). What no context sizes is
//! finished here, once.
ghost use Rattle.std.specs.Prelude.{◌≡◌, true, IfOk, map};
ghost use Rattle.v_syntax.specs.Tree.{tree_of, trees_of, selection_of, selections_of};
ghost use Rattle.v_sizes.specs.Refusals.{only_first, only_later, is_bound};
ghost use Rattle.v_sizes.specs.Scopes.{look_of};
ghost use Rattle.v_widths.specs.Closing.{alone};
ghost use Rattle.v_widths.specs.Named.{named};
ghost use Rattle.v_widths.specs.Parts.{no_parts, with_parts, joined_parts, repeated_parts};
ghost use Rattle.v_widths.specs.Opening.{opened, opened_parts, opened_select, opened_selects, system_measured};

use crate::close::alone;
use crate::form::{binary, called, conditional, number, unary};
use crate::measured::{Measured, Parts, leaf_measured};
use crate::operators::taking_of;
use crate::parts::{ceiling, joined, no_parts, repeated, with_part};
use loc_base::{Boxed, Items, Name, NoMemory, Span};
use std::alloc::Global;
use v_selects::{At, Closed, Picked, named};
use v_sizes::{Meaning, Scope};
use v_syntax::{Expr, PartKind, Select, Site, SystemFunction};

/// Where an expression stands.
fn place_of(site: &Site, only: bool) -> At
    ensures { result ≡ record { span = site.now.span; only = only } }
{
    At {
        span: site.span,
        only,
    }
}

/// A call of a system function.
#[inline(never)]
fn system(
    alloc: Global,
    span: Span,
    function: SystemFunction,
    argument: Boxed<Closed>,
) -> Result<Boxed<Measured>, NoMemory>
    ensures { IfOk result (λ m. m ≡ system_measured span function argument) }
{
    match function {
        SystemFunction::Signed => called(alloc, true, argument),
        SystemFunction::Unsigned => called(alloc, false, argument),
        SystemFunction::Clog2 => ceiling(alloc, span, argument),
    }
}

/// An expression that no context sizes.
#[cycle(measure)]
fn finished(
    alloc: Global,
    e: &Expr,
    scope: &Scope<'_>,
    only: bool,
) -> Result<Boxed<Closed>, NoMemory>
    ensures { IfOk result (λ c. c ≡ alone (opened (look_of scope.now) only (tree_of e.now))) }
{
    let e = measure(alloc, e, scope, only)?;
    alone(alloc, e)
}

/// Parts from the left, each by itself.
#[cycle(measure)]
fn measured_parts(
    alloc: Global,
    parts: &[Expr],
    scope: &Scope<'_>,
    only: bool,
) -> Result<Parts, NoMemory>
    ensures { IfOk result (λ p. p ≡ with_parts no_parts (opened_parts (look_of scope.now) only (trees_of (map tree_of parts.now)))) }
{
    let mut joined = no_parts(alloc);
    for part in parts {
        let part = finished(alloc, part, scope, only)?;
        joined = with_part(joined, part)?;
    }
    Ok(joined)
}

/// A concatenation.
#[inline(never)]
#[cycle(measure)]
fn concatenation(
    alloc: Global,
    at: At,
    parts: &[Expr],
    scope: &Scope<'_>,
) -> Result<Boxed<Measured>, NoMemory>
    ensures { IfOk result (λ m. m ≡ joined_parts at.span (with_parts no_parts (opened_parts (look_of scope.now) at.only (trees_of (map tree_of parts.now))))) }
{
    let parts = measured_parts(alloc, parts, scope, at.only)?;
    joined(alloc, at.span, parts)
}

/// A replication, whose count is finished.
#[inline(never)]
#[cycle(measure)]
fn replication(
    alloc: Global,
    at: At,
    count: Boxed<Closed>,
    parts: &[Expr],
    scope: &Scope<'_>,
) -> Result<Boxed<Measured>, NoMemory>
    ensures { IfOk result (λ m. m ≡ repeated_parts at.span count (with_parts no_parts (opened_parts (look_of scope.now) at.only (trees_of (map tree_of parts.now))))) }
{
    let parts = measured_parts(alloc, parts, scope, at.only)?;
    repeated(alloc, at.span, count, parts)
}

/// Where constants alone may stand in a name's selects.
#[derive(Clone, Copy)]
struct Only {
    /// In the first one.
    first: bool,
    /// In those behind it.
    later: bool,
}

fn only_of(only: bool, meaning: Option<Meaning>) -> Only
    ensures first { result.first ≡ only_first only meaning }
    ensures later { result.later ≡ only_later only meaning }
{
    match meaning {
        Some(Meaning::Constant { .. }) => Only {
            first: true,
            later: true,
        },
        Some(Meaning::Array { .. }) => Only {
            first: only,
            later: true,
        },
        Some(Meaning::Signal { .. }) | None => Only {
            first: only,
            later: only,
        },
    }
}

/// Whether the first number of a part-select is a bound.
fn is_bound(kind: PartKind) -> bool
    ensures { result ≡ is_bound kind }
{
    matches!(kind, PartKind::Range)
}

/// A select, its indexes each by itself.
#[cycle(measure)]
#[tactic(auto, using(crate::proofs::TreeSteps::select_steps))]
fn measured_select(
    alloc: Global,
    select: &Select,
    scope: &Scope<'_>,
    only: bool,
) -> Result<Picked, NoMemory>
    ensures { IfOk result (λ p. p ≡ opened_select (look_of scope.now) only (selection_of select.now)) }
{
    match select {
        Select::Bit { site: _, index } => {
            let index = finished(alloc, index, scope, only)?;
            Ok(Picked::Bit(index))
        }
        Select::Part {
            site: _,
            kind,
            left,
            right,
        } => {
            let one = finished(alloc, left, scope, only || is_bound(*kind))?;
            let other = finished(alloc, right, scope, true)?;
            Ok(Picked::Part {
                kind: *kind,
                one,
                other,
            })
        }
    }
}

/// Selects from the left.
#[inline(never)]
#[cycle(measure)]
fn measured_selects(
    alloc: Global,
    selects: &[Select],
    scope: &Scope<'_>,
    only: Only,
) -> Result<Items<Picked>, NoMemory>
    ensures { IfOk result (λ ps. ps ≡ opened_selects (look_of scope.now) only.first only.later (selections_of (map selection_of selects.now))) }
{
    let mut all = Items::new(alloc);
    let mut here = only.first;
    for select in selects {
        let one = measured_select(alloc, select, scope, here)?;
        all.push(one)?;
        here = only.later;
    }
    Ok(all)
}

/// A name with its selects.
#[inline(never)]
#[cycle(measure)]
pub(crate) fn measure_name(
    alloc: Global,
    at: At,
    name: &Name,
    selects: &[Select],
    scope: &Scope<'_>,
) -> Result<Boxed<Measured>, NoMemory>
    ensures { IfOk result (λ m. m ≡ named at.span at.only (look_of scope.now name.now) (opened_selects (look_of scope.now) (only_first at.only (look_of scope.now name.now)) (only_later at.only (look_of scope.now name.now)) (selections_of (map selection_of selects.now)))) }
{
    let only = only_of(at.only, scope.find(name));
    let selects = measured_selects(alloc, selects, scope, only)?;
    let leaf = named(alloc, at, scope.find(name), selects)?;
    leaf_measured(alloc, leaf)
}

/// An expression measured: one look at each of its nodes. It calls itself for each level of the tree: what has large values is in
/// the functions that it calls.
#[cycle(measure)]
#[tactic(auto, using(crate::proofs::TreeSteps::tree_steps))]
pub(crate) fn measure(
    alloc: Global,
    e: &Expr,
    scope: &Scope<'_>,
    only: bool,
) -> Result<Boxed<Measured>, NoMemory>
    ensures { IfOk result (λ m. m ≡ opened (look_of scope.now) only (tree_of e.now)) }
{
    match e {
        Expr::Number { site, number: it } => number(alloc, site.span, it.text.as_slice()),
        Expr::Wild { site, number: it } => number(alloc, site.span, it.text.as_slice()),
        Expr::Name {
            site,
            name,
            selects,
        } => measure_name(alloc, place_of(site, only), name, selects, scope),
        Expr::Parens { inner, .. } => measure(alloc, inner, scope, only),
        Expr::Concat { site, parts } => concatenation(alloc, place_of(site, only), parts, scope),
        Expr::Repeat { site, count, parts } => {
            let count = finished(alloc, count, scope, true)?;
            replication(alloc, place_of(site, only), count, parts, scope)
        }
        Expr::System {
            site,
            function,
            argument,
        } => {
            let argument = finished(alloc, argument, scope, only)?;
            system(alloc, site.span, *function, argument)
        }
        Expr::Unary {
            operator,
            operand,
            ..
        } => {
            let operand = measure(alloc, operand, scope, only)?;
            unary(alloc, *operator, operand)
        }
        Expr::Binary {
            site,
            operator,
            left,
            right,
        } => {
            let left = measure(alloc, left, scope, only)?;
            let right = measure(alloc, right, scope, only)?;
            binary(alloc, site.span, taking_of(*operator), left, right)
        }
        Expr::Conditional {
            condition,
            then,
            other,
            ..
        } => {
            let condition = finished(alloc, condition, scope, only)?;
            let on_true = measure(alloc, then, scope, only)?;
            let on_false = measure(alloc, other, scope, only)?;
            conditional(alloc, condition, on_true, on_false)
        }
    }
}
