ghost use Rattle.std.specs.Prelude.{◌≡◌};
ghost use Rattle.std.specs.List.{list_all};
ghost use Rattle.design_core.specs.WellFormed.{label_fits, statement_fits};
ghost use Rattle.plain_values.specs.Evaluate.{item_fits};

use crate::expression::typed_fits;
use crate::parts::set_fits;
use design_core::{CaseItem, Label, Place, Signal, Stmt};

/// Whether a label has the width of its subject.
fn label_fits(signals: &[Signal], width: u8, label: &Label) -> bool
    ensures { result ≡ label_fits signals.now width label.now }
{
    typed_fits(signals, &label.value) && label.value.width == width && label.wild.width() == width
}

/// Whether all labels of a case item have the width of their subject.
fn labels_fit(signals: &[Signal], width: u8, labels: &[Label]) -> bool
    ensures { result ≡ list_all (label_fits signals.now width) labels.now }
{
    labels.iter().all(|label| label_fits(signals, width, label))
}

/// Whether the expressions and assignments of a statement fit.
#[cycle(statement)]
pub(crate) fn statement_fits(signals: &[Signal], places: &[Place], statement: &Stmt) -> bool
    ensures { result ≡ statement_fits signals.now places.now statement.now }
{
    match statement {
        Stmt::Nothing => true,
        Stmt::Block(statements) => statements_fit(signals, places, statements),
        Stmt::If { cond, yes, no } => {
            typed_fits(signals, cond)
                & statement_fits(signals, places, yes)
                & statement_fits(signals, places, no)
        }
        Stmt::Case {
            subject,
            items,
            other,
            ..
        } => {
            if !typed_fits(signals, subject) {
                return false;
            }
            if !items_fit(signals, places, subject.width, items) {
                return false;
            }
            statement_fits(signals, places, other)
        }
        Stmt::Set {
            place,
            target,
            value,
            ..
        } => set_fits(signals, places, Some(*place), &target.parts, value),
    }
}

#[cycle(statement)]
fn statements_fit(signals: &[Signal], places: &[Place], statements: &[Stmt]) -> bool
    ensures { result ≡ list_all (statement_fits signals.now places.now) statements.now }
{
    for statement in statements {
        if !statement_fits(signals, places, statement) {
            return false;
        }
    }
    true
}

#[cycle(statement)]
fn items_fit(signals: &[Signal], places: &[Place], width: u8, items: &[CaseItem]) -> bool
    ensures { result ≡ list_all (item_fits signals.now places.now width) items.now }
{
    for item in items {
        if !labels_fit(signals, width, &item.labels)
            || !statement_fits(signals, places, &item.body)
        {
            return false;
        }
    }
    true
}
