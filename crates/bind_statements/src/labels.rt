//! The labels of a case's arm (IEEE 1364-2005, 9.5).
ghost use Rattle.std.specs.Prelude.{◌≡◌, [], map, Ok, IfOk, IfErr, OnOk};
ghost use Rattle.v_syntax.specs.Tree.{tree_of};
ghost use Rattle.v_binding.specs.Steps.{each};
ghost use Rattle.v_binding.specs.Cases.{label_at};
ghost use Rattle.bind_scopes.specs.Refuses.{Refuses};
ghost use Rattle.v_binding.specs.Seen.{names_in};
ghost use Rattle.bind_statements.specs.Contexts.{context_of};

use crate::case_context::CaseContext;
use crate::wild::wild_word;
use bind_scopes::sized_in;
use design_core::Label;
use loc_base::Items;
use v_binding::{BindErr, Names};
use v_syntax::Expr;

/// One label more.
fn push_label(
    names: &Names<'_>,
    context: CaseContext,
    e: &Expr,
    done: &mut Items<Label>,
) -> Result<(), BindErr>
    ensures ok { OnOk result (label_at (names_in names.now) (context_of context) (tree_of e.now) done.old ≡ Ok done.new) }
    ensures err { IfErr result (λ fault. Refuses (label_at (names_in names.now) (context_of context) (tree_of e.now) done.old) fault) }
{
    let value = sized_in(names, e, context.width, !context.signed)?;
    let wild = wild_word(context, e);
    done.push(Label { value, wild })?;
    Ok(())
}

/// The labels of an arm, from the left.
pub(crate) fn labels_at(
    names: &Names<'_>,
    context: CaseContext,
    labels: &[Expr],
) -> Result<Items<Label>, BindErr>
    ensures ok { IfOk result (λ list. each (label_at (names_in names.now) (context_of context)) (map tree_of labels.now) [] ≡ Ok list) }
    ensures err { IfErr result (λ fault. Refuses (each (label_at (names_in names.now) (context_of context)) (map tree_of labels.now) []) fault) }
{
    let mut list = Items::new(names.allocator());
    for label in labels {
        push_label(names, context, label, &mut list)?;
    }
    Ok(list)
}
