//! The two arms of a block with a reset (IEEE 1364.1-2002, 5.2.2.1).
ghost use Rattle.std.specs.Prelude.{◌≡◌, false, option_map};
ghost use Rattle.std.specs.Option.{option_map_or};
ghost use Rattle.design_core.specs.WellFormed.{is_reset_values};
ghost use Rattle.v_binding.specs.Clocks.{arms_here, arms_of};
ghost use Rattle.bind_statements.specs.Parted.{arms_in, arms_listed};

use design_core::Stmt;
use design_fits::is_reset_values;
use loc_base::Items;

/// What the two arms have become.
#[derive(Drop)]
pub(crate) struct Arms {
    pub(crate) values: Stmt,
    pub(crate) body: Stmt,
}

/// Whether the first arm of an `if` statement has the values of a reset.
fn resets_here(statement: &Stmt) -> bool
    ensures { result ≡ option_map_or (λ arms. is_reset_values arms.values) (arms_here statement.now) false }
{
    match statement {
        Stmt::If { yes, .. } => is_reset_values(yes),
        _ => false,
    }
}

/// The same of the one statement of a block.
#[tactic(auto, using(crate::proofs::ArmLaws::listed))]
fn resets_alone(statements: &[Stmt]) -> bool
    ensures { result ≡ option_map_or (λ arms. is_reset_values arms.values) (arms_listed statements.now) false }
{
    statements.len() == 1 && resets_here(&statements[0])
}

/// Whether a block has two arms, of which the first has the values of a reset.
#[tactic(auto, using(crate::proofs::ArmLaws::blocks))]
pub(crate) fn has_values(statement: &Stmt) -> bool
    ensures { result ≡ option_map_or (λ arms. is_reset_values arms.values) (arms_of statement.now) false }
{
    match statement {
        Stmt::Block(statements) => resets_alone(statements),
        _ => resets_here(statement),
    }
}

/// The arms of an `if` statement.
fn arms_here(statement: Stmt) -> Option<Arms>
    ensures { option_map arms_in result ≡ arms_here statement }
{
    match statement {
        Stmt::If { cond: _, yes, no } => Some(Arms {
            values: yes.into_inner(),
            body: no.into_inner(),
        }),
        _ => None,
    }
}

/// The arms of the one statement of a block.
#[tactic(auto, using(crate::proofs::ArmLaws::popped))]
fn arms_alone(statements: Items<Stmt>) -> Option<Arms>
    ensures { option_map arms_in result ≡ arms_listed statements }
{
    let mut statements = statements;
    match statements.pop() {
        Some(last) => {
            if statements.is_empty() {
                arms_here(last)
            } else {
                None
            }
        }
        None => None,
    }
}

/// The arms of a block that has them.
#[tactic(auto, using(crate::proofs::ArmLaws::blocks))]
pub(crate) fn arms_of(statement: Stmt) -> Option<Arms>
    ensures { option_map arms_in result ≡ arms_of statement }
{
    match statement {
        Stmt::Block(statements) => arms_alone(statements),
        other => arms_here(other),
    }
}
