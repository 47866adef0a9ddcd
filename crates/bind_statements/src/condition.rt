//! The condition of a block with a reset (IEEE 1364.1-2002, 5.2.2.1).
ghost use Rattle.std.specs.Prelude.{◌≡◌, ◌&&◌, false, map, IfOk, option_map, if◌then◌else◌};
ghost use Rattle.std.specs.Option.{option_map_or};
ghost use Rattle.v_syntax.specs.Tree.{tree_of, selection_of, selections_of};
ghost use Rattle.v_hierarchy.specs.Views.{steps_of};
ghost use Rattle.v_binding.specs.Clocks.{is_name, is_word_of, is_constant_of, is_active, condition_of};
ghost use Rattle.v_binding.specs.Seen.{names_in};
ghost use Rattle.bind_statements.specs.Conditions.{has_none, condition_here, condition_listed};
ghost use Rattle.bind_clocks.specs.Waits.{resetting_of};

use bind_clocks::Resetting;
use bind_scopes::by_itself;
use design_core::Node;
use loc_base::{Name, NoMemory};
use v_binding::{BindErr, Names};
use v_hierarchy::Steps;
use v_syntax::{Binary, Expr, Select, Unary};

/// Whether there are no selects.
#[tactic(auto, using(crate::proofs::NameLaws::alone))]
fn has_none(selects: &[Select]) -> bool
    ensures { result ≡ has_none (selections_of (map selection_of selects.now)) }
{
    selects.len() == 0
}

/// Whether an expression is a name alone.
#[tactic(auto, using(crate::proofs::NameLaws::named))]
fn is_name(text: &Name, e: &Expr) -> bool
    ensures { result ≡ is_name text.now (tree_of e.now) }
{
    match e {
        Expr::Name { name, selects, .. } => {
            has_none(selects) && name.as_bytes() == text.as_bytes()
        }
        _ => false,
    }
}

/// Whether a node is a constant of that value.
fn is_word_of(value: u128, node: &Node) -> bool
    ensures { result ≡ is_word_of value node.now }
{
    match node {
        Node::Const(word) => word.value() == value,
        _ => false,
    }
}

/// Whether an expression is a constant of that value.
fn is_constant_of(names: &Names<'_>, value: u128, e: &Expr) -> Result<bool, NoMemory>
    ensures { IfOk result (λ is. is ≡ is_constant_of (names_in names.now) value (tree_of e.now)) }
{
    match by_itself(names, e) {
        Ok(typed) => Ok(is_word_of(value, &typed.node)),
        Err(BindErr::NoMemory) => Err(NoMemory),
        Err(_) => Ok(false),
    }
}

/// Whether two sides of a comparison say that a reset is active.
fn is_compared(
    names: &Names<'_>,
    reset: Resetting<'_>,
    left: &Expr,
    right: &Expr,
) -> Result<bool, NoMemory>
    ensures { IfOk result (λ is. is ≡ (is_name reset.entry.text.now (tree_of left.now) && is_constant_of (names_in names.now) (if reset.entry.level then 1 else 0) (tree_of right.now))) }
{
    if is_name(reset.text, left) {
        is_constant_of(names, u128::from(reset.level), right)
    } else {
        Ok(false)
    }
}

/// Whether a condition is that a reset is active.
fn is_active(names: &Names<'_>, reset: Resetting<'_>, condition: &Expr) -> Result<bool, NoMemory>
    ensures { IfOk result (λ is. is ≡ is_active (names_in names.now) (resetting_of reset.entry) (tree_of condition.now)) }
{
    match condition {
        Expr::Name { .. } => Ok(reset.level && is_name(reset.text, condition)),
        Expr::Unary {
            operator: Unary::Not | Unary::Complement,
            operand,
            ..
        } => Ok(!reset.level && is_name(reset.text, operand)),
        Expr::Binary {
            operator: Binary::Equal,
            left,
            right,
            ..
        } => is_compared(names, reset, left, right),
        _ => Ok(false),
    }
}

/// The condition of a statement with two arms.
#[tactic(auto, using(crate::proofs::StepLaws::here_views))]
fn condition_here<'s, 't>(steps: &'s Steps<'t>) -> Option<&'t Expr>
    ensures { option_map (λ e. tree_of e.now) result ≡ condition_here (steps_of steps.now) }
{
    match steps {
        Steps::Branch { condition, .. } => Some(condition),
        _ => None,
    }
}

/// The condition of the one statement of a block.
#[tactic(auto, using(crate::proofs::StepLaws::listed))]
fn condition_alone<'s, 't>(steps: &'s [Steps<'t>]) -> Option<&'t Expr>
    ensures { option_map (λ e. tree_of e.now) result ≡ condition_listed (map steps_of steps.now) }
{
    if steps.len() == 1 {
        condition_here(&steps[0])
    } else {
        None
    }
}

/// The condition of a block.
#[tactic(auto, using(crate::proofs::StepLaws::condition_views))]
fn condition_of<'s, 't>(steps: &'s Steps<'t>) -> Option<&'t Expr>
    ensures { option_map (λ e. tree_of e.now) result ≡ condition_of (steps_of steps.now) }
{
    match steps {
        Steps::Run(steps) => condition_alone(steps),
        _ => condition_here(steps),
    }
}

/// Whether the condition of a block is that a reset is active.
pub(crate) fn is_reset(
    names: &Names<'_>,
    reset: Resetting<'_>,
    steps: &Steps<'_>,
) -> Result<bool, NoMemory>
    ensures { IfOk result (λ is. is ≡ option_map_or (is_active (names_in names.now) (resetting_of reset.entry)) (condition_of (steps_of steps.now)) false) }
{
    match condition_of(steps) {
        Some(condition) => is_active(names, reset, condition),
        None => Ok(false),
    }
}
