//! The context of a case's expressions (IEEE 1364-2005, 9.5): the widest width, signed only where all are.
ghost use Rattle.std.specs.Prelude.{◌≡◌, map, IfOk};
ghost use Rattle.v_syntax.specs.Tree.{tree_of};
ghost use Rattle.v_hierarchy.specs.Views.{arm_of, arms_of};
ghost use Rattle.v_sizes.specs.Sizing.{sizing};
ghost use Rattle.v_binding.specs.Names.{look_in};
ghost use Rattle.v_binding.specs.Steps.{through};
ghost use Rattle.v_binding.specs.Cases as case;
ghost use Rattle.v_binding.specs.Seen.{names_in};
ghost use Rattle.bind_statements.specs.Contexts.{context_of, with_arm};

use crate::case_context::CaseContext;
use bind_scopes::own_size;
use loc_base::NoMemory;
use v_binding::Names;
use v_hierarchy::Arm;
use v_syntax::Expr;

/// The context of one expression.
fn context_alone(names: &Names<'_>, e: &Expr) -> Result<CaseContext, NoMemory>
    ensures width { IfOk result (λ c. c.width ≡ (sizing (look_in (names_in names.now)) (tree_of e.now)).width) }
    ensures signed { IfOk result (λ c. c.signed ≡ (sizing (look_in (names_in names.now)) (tree_of e.now)).signed) }
{
    let own = own_size(names, e)?;
    Ok(CaseContext {
        width: own.width,
        signed: own.signed,
    })
}

/// The context with one label more.
fn with_label(names: &Names<'_>, e: &Expr, context: CaseContext) -> Result<CaseContext, NoMemory>
    ensures { IfOk result (λ c. context_of c ≡ case.with_label (names_in names.now) (tree_of e.now) (context_of context)) }
{
    let own = context_alone(names, e)?;
    Ok(CaseContext {
        width: context.width.max(own.width),
        signed: context.signed && own.signed,
    })
}

/// The context with the labels of an arm.
fn with_labels(
    names: &Names<'_>,
    labels: &[Expr],
    context: CaseContext,
) -> Result<CaseContext, NoMemory>
    ensures { IfOk result (λ c. context_of c ≡ through (case.with_label (names_in names.now)) (map tree_of labels.now) (context_of context)) }
{
    let mut all = context;
    for label in labels {
        all = with_label(names, label, all)?;
    }
    Ok(all)
}

/// The context with an arm.
#[tactic(auto, using(crate::proofs::StepViews::step_views))]
fn with_arm(names: &Names<'_>, arm: &Arm<'_>, context: CaseContext) -> Result<CaseContext, NoMemory>
    ensures { IfOk result (λ c. context_of c ≡ with_arm (names_in names.now) (arm_of arm.now) (context_of context)) }
{
    match arm {
        Arm::Labels { labels, body: _ } => with_labels(names, labels, context),
        Arm::Default(_) => Ok(context),
    }
}

/// The context of a case: of its subject and all labels.
#[tactic(auto, using(crate::proofs::ArmSteps::context_steps))]
pub(crate) fn case_context(
    names: &Names<'_>,
    subject: &Expr,
    arms: &[Arm<'_>],
) -> Result<CaseContext, NoMemory>
    ensures { IfOk result (λ c. context_of c ≡ case.context_of (names_in names.now) (tree_of subject.now) (arms_of (map arm_of arms.now))) }
{
    let mut all = context_alone(names, subject)?;
    for arm in arms {
        all = with_arm(names, arm, all)?;
    }
    Ok(all)
}
