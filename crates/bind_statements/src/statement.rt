//! Statements with their loops unrolled (IEEE 1364-2005, 9.4, 9.5, 9.6 and 9.8).
ghost use Rattle.std.specs.Prelude.{◌≡◌, [], map, Ok, IfOk, IfErr, OnOk};
ghost use Rattle.loc_base.specs.Bits.{width_of};
ghost use Rattle.v_hierarchy.specs.Views.{steps_of, arm_of, turn_of, step_list_of, arms_of, turns_of};
ghost use Rattle.v_binding.specs.Names.{turned};
ghost use Rattle.v_binding.specs.Places.{placed};
ghost use Rattle.v_binding.specs.Statements as written;
ghost use Rattle.bind_scopes.specs.Refuses.{Refuses};
ghost use Rattle.v_binding.specs.Seen.{names_in};
ghost use Rattle.v_binding.specs.Homes.{home_of};
ghost use Rattle.bind_statements.specs.Arms.{chosen_of, bound_arm, FitArm};
ghost use Rattle.bind_statements.specs.Contexts.{context_of};
ghost use Rattle.v_binding.specs.Turns.{FitTurns, AllFit, ArmsFit, TurnsFit};

use crate::assignment::still;
use crate::case_context::CaseContext;
use crate::case_sizes::case_context;
use crate::chosen::{
    BoundArm, Chosen, case_statement, chosen_with, if_statement, is_wild_case, nothing_chosen,
};
use crate::labels::labels_at;
use bind_scopes::{by_itself, sized_in};
use design_core::{CaseItem, Place, Stmt};
use loc_base::Items;
use v_binding::{BindErr, Home, Known, Names, Use};
use v_hierarchy::{Arm, Steps, Turn};
use v_syntax::Identifier;

/// Where a loop stands, and its variable.
#[derive(Clone, Copy)]
struct Loop<'t, 'h> {
    home: Home<'h>,
    variable: &'t Identifier,
}

/// Where a case stands, and the context of its expressions.
#[derive(Clone, Copy)]
struct Case<'h> {
    home: Home<'h>,
    context: CaseContext,
}

/// The statements of a block.
#[cycle(statements)]
fn block<'t>(
    home: Home<'_>,
    names: &mut Names<'t>,
    steps: &[Steps<'t>],
    places: &mut Items<Place>,
) -> Result<Stmt, BindErr>
    requires { AllFit (step_list_of (map steps_of steps.now)) }
    ensures bound { IfOk result (λ s. written.bound_all (home_of home.entry) (names_in names.old) (step_list_of (map steps_of steps.now)) [] places.old ≡ Ok (placed s places.new)) }
    ensures refused { IfErr result (λ fault. Refuses (written.bound_all (home_of home.entry) (names_in names.old) (step_list_of (map steps_of steps.now)) [] places.old) fault) }
    ensures same { OnOk result (names_in names.new ≡ names_in names.old) }
{
    let mut done = Items::new(names.allocator());
    for step in steps {
        let one = bound(home, names, step, places)?;
        done.push(one)?;
    }
    Ok(Stmt::Block(done))
}

/// A turn of a loop: its variable hides what has its name.
#[cycle(statements)]
#[tactic(auto, using(crate::proofs::TurnLaws::turn_laws))]
fn turn<'t>(
    at: Loop<'t, '_>,
    names: &mut Names<'t>,
    turn: &Turn<'t>,
    places: &mut Items<Place>,
) -> Result<Stmt, BindErr>
    requires width { width_of turn.now.value.bits ≡ 32 }
    requires fit { FitTurns (steps_of turn.now.body) }
    ensures bound { IfOk result (λ s. written.bound (home_of at.entry.home) (turned at.entry.variable.now turn.now.value (names_in names.old)) (steps_of turn.now.body) places.old ≡ Ok (placed s places.new)) }
    ensures refused { IfErr result (λ fault. Refuses (written.bound (home_of at.entry.home) (turned at.entry.variable.now turn.now.value (names_in names.old)) (steps_of turn.now.body) places.old) fault) }
    ensures same { OnOk result (names_in names.new ≡ names_in names.old) }
{
    names.push(Known::new(&at.variable.name, Use::AtTurn(turn.value)))?;
    let body = bound(at.home, names, &turn.body, places)?;
    names.pop();
    Ok(body)
}

/// The turns of a loop.
#[cycle(statements)]
fn turns<'t>(
    at: Loop<'t, '_>,
    names: &mut Names<'t>,
    turns: &[Turn<'t>],
    places: &mut Items<Place>,
) -> Result<Stmt, BindErr>
    requires { TurnsFit (turns_of (map turn_of turns.now)) }
    ensures bound { IfOk result (λ s. written.bound_turns (home_of at.entry.home) (names_in names.old) at.entry.variable.now (turns_of (map turn_of turns.now)) [] places.old ≡ Ok (placed s places.new)) }
    ensures refused { IfErr result (λ fault. Refuses (written.bound_turns (home_of at.entry.home) (names_in names.old) at.entry.variable.now (turns_of (map turn_of turns.now)) [] places.old) fault) }
    ensures same { OnOk result (names_in names.new ≡ names_in names.old) }
{
    let mut done = Items::new(names.allocator());
    for one in turns {
        let body = turn(at, names, one, places)?;
        done.push(body)?;
    }
    Ok(Stmt::Block(done))
}

/// An arm of a case: its labels, then its statement.
#[cycle(statements)]
#[tactic(auto, using(crate::proofs::StepViews::step_views))]
fn arm<'t>(
    case: Case<'_>,
    names: &mut Names<'t>,
    arm: &Arm<'t>,
    places: &mut Items<Place>,
) -> Result<BoundArm, BindErr>
    requires { FitArm (arm_of arm.now) }
    ensures bound { IfOk result (λ a. bound_arm (home_of case.entry.home) (names_in names.old) (context_of case.entry.context) (arm_of arm.now) places.old ≡ Ok (placed a places.new)) }
    ensures refused { IfErr result (λ fault. Refuses (bound_arm (home_of case.entry.home) (names_in names.old) (context_of case.entry.context) (arm_of arm.now) places.old) fault) }
    ensures same { OnOk result (names_in names.new ≡ names_in names.old) }
{
    match arm {
        Arm::Labels { labels, body } => {
            let labels = labels_at(names, case.context, labels)?;
            let body = bound(case.home, names, body, places)?;
            Ok(BoundArm::Item(CaseItem { labels, body }))
        }
        Arm::Default(body) => {
            let body = bound(case.home, names, body, places)?;
            Ok(BoundArm::Other(body))
        }
    }
}

/// The arms of a case, from the first.
#[cycle(statements)]
#[tactic(auto, using(crate::proofs::ArmSteps::arm_steps))]
fn arms<'t>(
    case: Case<'_>,
    names: &mut Names<'t>,
    arms: &[Arm<'t>],
    places: &mut Items<Place>,
) -> Result<Chosen, BindErr>
    requires { ArmsFit (arms_of (map arm_of arms.now)) }
    ensures bound { IfOk result (λ x. written.bound_arms (home_of case.entry.home) (names_in names.old) (context_of case.entry.context) (arms_of (map arm_of arms.now)) written.nothing_chosen places.old ≡ Ok (placed (chosen_of x) places.new)) }
    ensures refused { IfErr result (λ fault. Refuses (written.bound_arms (home_of case.entry.home) (names_in names.old) (context_of case.entry.context) (arms_of (map arm_of arms.now)) written.nothing_chosen places.old) fault) }
    ensures same { OnOk result (names_in names.new ≡ names_in names.old) }
{
    let mut chosen = nothing_chosen(names.allocator());
    for one in arms {
        let made = arm(case, names, one, places)?;
        chosen = chosen_with(names.allocator(), chosen, made)?;
    }
    Ok(chosen)
}

/// A statement with its loops unrolled: what it is in a design, and its places behind those before it. The names are as
/// before; after a refusal nothing is said of them, nor of the places.
#[cycle(statements)]
#[tactic(auto, using(crate::proofs::StepViews::step_views))]
pub fn bound<'t>(
    home: Home<'_>,
    names: &mut Names<'t>,
    steps: &Steps<'t>,
    places: &mut Items<Place>,
) -> Result<Stmt, BindErr>
    requires { FitTurns (steps_of steps.now) }
    ensures bound { IfOk result (λ s. written.bound (home_of home.entry) (names_in names.old) (steps_of steps.now) places.old ≡ Ok (placed s places.new)) }
    ensures refused { IfErr result (λ fault. Refuses (written.bound (home_of home.entry) (names_in names.old) (steps_of steps.now) places.old) fault) }
    ensures same { OnOk result (names_in names.new ≡ names_in names.old) }
{
    match steps {
        Steps::Nothing => Ok(Stmt::Nothing),
        Steps::Still(statement) => still(home, names, statement, places),
        Steps::Run(list) => block(home, names, list, places),
        Steps::Branch {
            condition,
            then,
            other,
        } => {
            let cond = by_itself(names, condition)?;
            let yes = bound(home, names, then, places)?;
            let no = bound(home, names, other, places)?;
            Ok(if_statement(names.allocator(), cond, yes, no)?)
        }
        Steps::Choose {
            kind,
            subject,
            arms: list,
        } => {
            let context = case_context(names, subject, list)?;
            let value = sized_in(names, subject, context.width, !context.signed)?;
            let chosen = arms(Case { home, context }, names, list, places)?;
            Ok(case_statement(names.allocator(), value, chosen, is_wild_case(*kind))?)
        }
        Steps::Repeated {
            variable,
            turns: list,
        } => turns(Loop { home, variable }, names, list, places),
    }
}
