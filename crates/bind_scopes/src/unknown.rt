//! Which name of an expression is refused as unknown, and why an expression is refused (IEEE 1364-2005, clause 5 and 12.7).
ghost use Rattle.std.specs.Prelude.{◌≡◌, ◌&&◌, not, false, if◌then◌else◌, map, Some, None};
ghost use Rattle.std.specs.Option.{option_or};
ghost use Rattle.v_syntax.specs.Tree.{tree_of, trees_of, selection_of, selections_of};
ghost use Rattle.v_syntax.specs.Tree as written;
ghost use Rattle.v_syntax.specs.declared.site.Site.{Site};
ghost use Rattle.v_binding.specs.Names.{find};
ghost use Rattle.v_binding.specs.Unknown.{has_two, is_misused, is_outside, unknown_name, unknown_in, unknown_parts, unknown_selects, name_fault, fault_in};
ghost use Rattle.v_binding.specs.Seen.{names_in};
ghost use Rattle.bind_scopes.specs.Unknown.{unknown_select};

use loc_base::{Name, Span};
use v_binding::{BindErr, Names, Use};
use v_sizes::{Meaning, WidthErr};
use v_syntax::{Expr, Select};

/// Whether there are two selects or more.
#[tactic(auto, using(crate::proofs::Selects::two_selects))]
pub fn has_two(selects: &[Select]) -> bool
    ensures { result ≡ has_two (selections_of (map selection_of selects.now)) }
{
    selects.len() >= 2
}

/// Whether what a name stands for can't have these selects.
#[tactic(auto, using(v_widths::proofs::TreeSteps::select_steps))]
fn is_misused(meaning: Meaning, selects: &[Select]) -> bool
    ensures { result ≡ is_misused meaning (selections_of (map selection_of selects.now)) }
{
    match meaning {
        Meaning::Constant { .. } | Meaning::Signal { .. } => has_two(selects),
        Meaning::Array { .. } => match selects.split_first() {
            None => true,
            Some((Select::Part { .. }, _rest)) => true,
            Some((Select::Bit { .. }, rest)) => has_two(rest),
        },
    }
}

/// Whether a name that stands for something is the variable of a loop outside its turns.
fn is_outside_use(own: Use) -> bool
    ensures { result ≡ is_outside (Some own) }
{
    match own {
        Use::Stands(_) | Use::AtTurn(_) => false,
        Use::Outside => true,
    }
}

/// Whether a name is the variable of a loop outside its turns.
fn is_outside(names: &Names<'_>, name: &Name) -> bool
    ensures { result ≡ is_outside (find (names_in names.now) name.now) }
{
    match names.find(name) {
        Some(own) => is_outside_use(own),
        None => false,
    }
}

/// Whether a name is the variable of a loop outside its turns, with at most one select.
fn is_loop_variable(names: &Names<'_>, name: &Name, selects: &[Select]) -> bool
    ensures { result ≡ (is_outside (find (names_in names.now) name.now) && not (has_two (selections_of (map selection_of selects.now)))) }
{
    is_outside(names, name) && !has_two(selects)
}

/// Of a name that stands for something: whether it is the variable of a loop, where it is refused as unknown.
fn unknown_meaning(meaning: Meaning, selects: &[Select]) -> Option<bool>
    ensures { result ≡ (if is_misused meaning (selections_of (map selection_of selects.now)) then Some false else None) }
{
    if is_misused(meaning, selects) {
        Some(false)
    } else {
        None
    }
}

/// Whether a name that is refused as unknown is the variable of a loop; nothing where it isn't refused so.
fn unknown_name(names: &Names<'_>, name: &Name, selects: &[Select]) -> Option<bool>
    ensures { result ≡ unknown_name (names_in names.now) name.now (selections_of (map selection_of selects.now)) }
{
    match names.scope().find(name) {
        None => Some(is_loop_variable(names, name, selects)),
        Some(meaning) => unknown_meaning(meaning, selects),
    }
}

/// The same of the first such name in a select, behind those before it.
#[cycle(unknown)]
#[tactic(auto, using(v_widths::proofs::TreeSteps::select_steps))]
fn unknown_select(names: &Names<'_>, select: &Select, before: Option<bool>) -> Option<bool>
    ensures { result ≡ unknown_select (names_in names.now) (selection_of select.now) before }
{
    match select {
        Select::Bit { site: _, index } => unknown_in(names, index, before),
        Select::Part {
            site: _,
            kind: _,
            left,
            right,
        } => {
            let one = unknown_in(names, left, before);
            unknown_in(names, right, one)
        }
    }
}

/// The same of several selects.
#[cycle(unknown)]
fn unknown_selects(names: &Names<'_>, selects: &[Select], before: Option<bool>) -> Option<bool>
    ensures { result ≡ unknown_selects (names_in names.now) (selections_of (map selection_of selects.now)) before }
{
    let mut found = before;
    for select in selects {
        found = unknown_select(names, select, found);
    }
    found
}

/// The same of several expressions.
#[cycle(unknown)]
fn unknown_parts(names: &Names<'_>, parts: &[Expr], before: Option<bool>) -> Option<bool>
    ensures { result ≡ unknown_parts (names_in names.now) (trees_of (map tree_of parts.now)) before }
{
    let mut found = before;
    for part in parts {
        found = unknown_in(names, part, found);
    }
    found
}

/// The same of a name with its selects.
#[cycle(unknown)]
fn unknown_named(
    names: &Names<'_>,
    name: &Name,
    selects: &[Select],
    before: Option<bool>,
) -> Option<bool>
    ensures { result ≡ option_or (unknown_selects (names_in names.now) (selections_of (map selection_of selects.now)) before) (unknown_name (names_in names.now) name.now (selections_of (map selection_of selects.now))) }
{
    match unknown_selects(names, selects, before) {
        Some(found) => Some(found),
        None => unknown_name(names, name, selects),
    }
}

/// The same of an expression.
#[cycle(unknown)]
#[tactic(auto, using(v_widths::proofs::TreeSteps::tree_steps))]
fn unknown_in(names: &Names<'_>, e: &Expr, before: Option<bool>) -> Option<bool>
    ensures { result ≡ unknown_in (names_in names.now) (tree_of e.now) before }
{
    match e {
        Expr::Number { .. } | Expr::Wild { .. } => before,
        Expr::Name {
            site: _,
            name,
            selects,
        } => unknown_named(names, name, selects, before),
        Expr::Parens { site: _, inner } => unknown_in(names, inner, before),
        Expr::Concat { site: _, parts } => unknown_parts(names, parts, before),
        Expr::Repeat {
            site: _,
            count,
            parts,
        } => {
            let one = unknown_in(names, count, before);
            unknown_parts(names, parts, one)
        }
        Expr::System {
            site: _,
            function: _,
            argument,
        } => unknown_in(names, argument, before),
        Expr::Unary {
            site: _,
            operator: _,
            operand,
        } => unknown_in(names, operand, before),
        Expr::Binary {
            site: _,
            operator: _,
            left,
            right,
        } => {
            let one = unknown_in(names, left, before);
            unknown_in(names, right, one)
        }
        Expr::Conditional {
            site: _,
            condition,
            then,
            other,
        } => {
            let one = unknown_in(names, condition, before);
            let two = unknown_in(names, then, one);
            unknown_in(names, other, two)
        }
    }
}

/// The fault of a name that is refused as unknown.
fn name_fault(span: Span, found: Option<bool>) -> BindErr
    ensures { result ≡ name_fault span found }
{
    match found {
        Some(true) => BindErr::NotConstant(span),
        _ => BindErr::UnknownName(span),
    }
}

/// Why an expression is refused.
pub(crate) fn fault_in(names: &Names<'_>, e: &Expr, wrong: WidthErr) -> BindErr
    ensures { result ≡ fault_in (names_in names.now) (tree_of e.now) wrong }
{
    match wrong {
        WidthErr::UnknownName(span) => name_fault(span, unknown_in(names, e, None)),
        WidthErr::NotConstant(_)
        | WidthErr::ZeroDivisor(_)
        | WidthErr::Range(_)
        | WidthErr::NoMemory => wrong.into(),
    }
}

/// Why a name with its selects is refused.
pub(crate) fn fault_of_name(
    names: &Names<'_>,
    name: &Name,
    selects: &[Select],
    wrong: WidthErr,
) -> BindErr
    ensures { (site : Site) → result ≡ fault_in (names_in names.now) (written.name site name.now (selections_of (map selection_of selects.now))) wrong }
{
    match wrong {
        WidthErr::UnknownName(span) => name_fault(span, unknown_named(names, name, selects, None)),
        WidthErr::NotConstant(_)
        | WidthErr::ZeroDivisor(_)
        | WidthErr::Range(_)
        | WidthErr::NoMemory => wrong.into(),
    }
}
