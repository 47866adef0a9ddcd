//! Initial blocks (IEEE 1364-2005, 9.9.1): each assignment gives a register its value at the start.
ghost use Rattle.std.specs.Prelude.{◌≡◌, map, Ok, OnOk, IfErr};
ghost use Rattle.v_syntax.specs.Tree.{tree_of};
ghost use Rattle.v_syntax.specs.StatementTree.{statement_of, statements_of};
ghost use Rattle.v_binding.specs.Assignments.{initial_fault, initial_at, initial_block, initial_all};
ghost use Rattle.v_binding.specs.Seen.{names_in};
ghost use Rattle.bind_scopes.specs.Refuses.{Refuses};

use crate::starts::register_of;
use bind_clocks::Bound;
use bind_scopes::constant_at;
use loc_base::{Name, Span};
use v_binding::{BindErr, Initial, Names, StartValue, Use};
use v_sizes::Meaning;
use v_syntax::{Expr, Left, Site, Statement};

/// Why a name that stands for something, if it does, can't have a value at the start.
fn initial_fault(span: Span, own: Option<Use>) -> Option<BindErr>
    ensures { result ≡ initial_fault span own }
{
    match own {
        Some(Use::Stands(Meaning::Signal { .. })) => None,
        Some(Use::AtTurn(_)) | Some(Use::Outside) => Some(BindErr::NotConstant(span)),
        _ => Some(BindErr::UnknownName(span)),
    }
}

/// A name that an initial block assigns.
#[derive(Clone, Copy)]
struct Assigned<'a> {
    site: Site,
    name: &'a Name,
}

/// The start value that an initial block gives to a register.
fn initial_at(
    names: &Names<'_>,
    target: Assigned<'_>,
    value: &Expr,
    bound: &mut Bound,
) -> Result<(), BindErr>
    ensures ok { OnOk result (initial_at (names_in names.now) target.entry.site target.entry.name.now (tree_of value.now) bound.old ≡ Ok bound.new) }
    ensures err { IfErr result (λ e. Refuses (initial_at (names_in names.now) target.entry.site target.entry.name.now (tree_of value.now) bound.old) e) }
{
    if let Some(wrong) = initial_fault(target.site.span, names.find(target.name)) {
        return Err(wrong);
    }
    let own = register_of(names, target.name);
    let value = constant_at(names, value, own.width)?;
    let start = StartValue::new(own.signal, own.width, value);
    bound.add_initial(Initial::new(target.site.span, start))?;
    Ok(())
}

/// The start values that a statement of an initial block gives.
#[cycle(initial)]
#[tactic(auto, using(bind_scopes::proofs::StatementViews::statement_views, bind_scopes::proofs::LeftSteps::left_steps))]
pub(crate) fn initial_block(
    names: &Names<'_>,
    statement: &Statement,
    bound: &mut Bound,
) -> Result<(), BindErr>
    ensures ok { OnOk result (initial_block (names_in names.now) (statement_of statement.now) bound.old ≡ Ok bound.new) }
    ensures err { IfErr result (λ e. Refuses (initial_block (names_in names.now) (statement_of statement.now) bound.old) e) }
{
    match statement {
        Statement::Block { body, .. } => initial_all(names, body.as_slice(), bound),
        Statement::Assign { target, value, .. } => match target {
            Left::Name { site, name, .. } => {
                let target = Assigned { site: *site, name };
                initial_at(names, target, value, bound)
            }
            Left::Concat { .. } => Ok(()),
        },
        Statement::Empty { .. }
        | Statement::Delayed { .. }
        | Statement::If { .. }
        | Statement::Case { .. }
        | Statement::For { .. } => Ok(()),
    }
}

/// The same of several statements.
#[cycle(initial)]
fn initial_all(
    names: &Names<'_>,
    statements: &[Statement],
    bound: &mut Bound,
) -> Result<(), BindErr>
    ensures ok { OnOk result (initial_all (names_in names.now) (statements_of (map statement_of statements.now)) bound.old ≡ Ok bound.new) }
    ensures err { IfErr result (λ e. Refuses (initial_all (names_in names.now) (statements_of (map statement_of statements.now)) bound.old) e) }
{
    for statement in statements {
        initial_block(names, statement, bound)?;
    }
    Ok(())
}
