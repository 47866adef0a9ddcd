//! The variables of the loops of a scope (IEEE 1364-2005, 9.6), found by one look into a table.
ghost use Rattle.std.specs.Prelude.{◌≡◌, ℕ, List, [], map, nat_lt, OnOk, IfOk};
ghost use Rattle.v_hierarchy.specs.Names.{Entry};
ghost use Rattle.v_hierarchy.specs.Views.{steps_of, step_list_of, arm_of, arms_of, turn_of, turns_of, copied_of, copies_of, block_of};
ghost use Rattle.v_binding.specs.Standing.{CopiedStands, CopiesStand, BlockStands};
ghost use Rattle.bind_signals.specs.Tables.{is_behind, HasFirsts};
ghost use Rattle.bind_signals.specs.LoopNames.{listed, is_used, with_loops, with_all, with_arm, with_arms, with_turns, with_copies, with_copied, with_block, with_unhidden, without};

use crate::tokens::{firsts_of, hides, is_behind, last_of_each};
use loc_base::{Items, Name, NoMemory};
use std::alloc::Global;
use v_hierarchy::{Arm, Block, Copied, Places, Steps, Turn};
use v_syntax::Identifier;

/// The variables of the loops of a statement, behind those before.
#[cycle(loops)]
#[tactic(auto, using(crate::proofs::StepViews::step_views))]
fn add_loops<'t>(steps: &Steps<'t>, names: &mut Items<&'t Identifier>) -> Result<(), NoMemory>
    ensures { OnOk result (listed names.new ≡ with_loops (steps_of steps.now) (listed names.old)) }
{
    match steps {
        Steps::Nothing | Steps::Still(_) => Ok(()),
        Steps::Run(list) => add_all(list.as_slice(), names),
        Steps::Branch {
            condition: _,
            then,
            other,
        } => {
            add_loops(then.get(), names)?;
            add_loops(other.get(), names)
        }
        Steps::Choose {
            kind: _,
            subject: _,
            arms,
        } => add_arms(arms.as_slice(), names),
        Steps::Repeated { variable, turns } => {
            names.push(*variable)?;
            add_turns(turns.as_slice(), names)
        }
    }
}

/// The same of several statements.
#[cycle(loops)]
fn add_all<'t>(list: &[Steps<'t>], names: &mut Items<&'t Identifier>) -> Result<(), NoMemory>
    ensures { OnOk result (listed names.new ≡ with_all (step_list_of (map steps_of list.now)) (listed names.old)) }
{
    for steps in list {
        add_loops(steps, names)?;
    }
    Ok(())
}

/// The same of an arm of a case.
#[cycle(loops)]
#[tactic(auto, using(crate::proofs::StepViews::step_views))]
fn add_arm<'t>(arm: &Arm<'t>, names: &mut Items<&'t Identifier>) -> Result<(), NoMemory>
    ensures { OnOk result (listed names.new ≡ with_arm (arm_of arm.now) (listed names.old)) }
{
    match arm {
        Arm::Labels { labels: _, body } => add_loops(body, names),
        Arm::Default(body) => add_loops(body, names),
    }
}

/// The same of the arms of a case.
#[cycle(loops)]
#[tactic(auto, using(crate::proofs::LoopLaws::arms_step))]
fn add_arms<'t>(arms: &[Arm<'t>], names: &mut Items<&'t Identifier>) -> Result<(), NoMemory>
    ensures { OnOk result (listed names.new ≡ with_arms (arms_of (map arm_of arms.now)) (listed names.old)) }
{
    for arm in arms {
        add_arm(arm, names)?;
    }
    Ok(())
}

/// The same of the turns of a loop.
#[cycle(loops)]
#[tactic(auto, using(crate::proofs::StepViews::step_views))]
fn add_turns<'t>(turns: &[Turn<'t>], names: &mut Items<&'t Identifier>) -> Result<(), NoMemory>
    ensures { OnOk result (listed names.new ≡ with_turns (turns_of (map turn_of turns.now)) (listed names.old)) }
{
    for turn in turns {
        add_loops(&turn.body, names)?;
    }
    Ok(())
}

/// Those that stand before what a scope declares by their names.
fn add_unhidden<'t>(
    declared: &Places<'t>,
    inside: &[&'t Identifier],
    names: &mut Items<&'t Identifier>,
) -> Result<(), NoMemory>
    ensures { OnOk result ((entries : List Entry) → HasFirsts declared.now entries → listed names.new ≡ with_unhidden entries (listed inside.now) (listed names.old)) }
{
    for variable in inside {
        if !hides(declared, variable) {
            names.push(*variable)?;
        }
    }
    Ok(())
}

/// Those that haven't one name.
fn add_others<'t>(
    hidden: &Name,
    inside: &[&'t Identifier],
    names: &mut Items<&'t Identifier>,
) -> Result<(), NoMemory>
    ensures { OnOk result (listed names.new ≡ without hidden.now (listed inside.now) (listed names.old)) }
{
    for variable in inside {
        if hidden.as_bytes() != variable.name.as_bytes() {
            names.push(*variable)?;
        }
    }
    Ok(())
}

/// The variables of the loops in a scope inside, but for those that it declares before them.
#[cycle(copies)]
#[tactic(auto, using(bind_scopes::proofs::CopiedViews::copied_views))]
fn add_block<'t>(
    alloc: Global,
    block: &Block<'t>,
    names: &mut Items<&'t Identifier>,
) -> Result<(), NoMemory>
    requires { BlockStands (block_of block.now) }
    ensures { OnOk result (listed names.new ≡ with_block (block_of block.now) (listed names.old)) }
{
    let declared = firsts_of(alloc, block.names.as_slice())?;
    let mut inside = Items::new(alloc);
    add_copies(alloc, block.copies.as_slice(), &mut inside)?;
    add_unhidden(&declared, inside.as_slice(), names)
}

/// The variables of the loops in what an item makes.
#[cycle(copies)]
#[tactic(auto, using(bind_scopes::proofs::CopiedViews::copied_views))]
fn add_copied<'t>(
    alloc: Global,
    copied: &Copied<'t>,
    names: &mut Items<&'t Identifier>,
) -> Result<(), NoMemory>
    requires { CopiedStands (copied_of copied.now) }
    ensures { OnOk result (listed names.new ≡ with_copied (copied_of copied.now) (listed names.old)) }
{
    match copied {
        Copied::Written(_) | Copied::Child { .. } => Ok(()),
        Copied::Always {
            site: _,
            sensitivity: _,
            body,
        } => add_loops(body, names),
        Copied::Inner(block) => add_block(alloc, block, names),
        Copied::Turn {
            variable,
            value: _,
            block,
        } => {
            let mut inside = Items::new(alloc);
            add_block(alloc, block, &mut inside)?;
            add_others(&variable.name, inside.as_slice(), names)
        }
    }
}

/// The same of several items.
#[cycle(copies)]
fn add_copies<'t>(
    alloc: Global,
    copies: &[Copied<'t>],
    names: &mut Items<&'t Identifier>,
) -> Result<(), NoMemory>
    requires { CopiesStand (copies_of (map copied_of copies.now)) }
    ensures { OnOk result (listed names.new ≡ with_copies (copies_of (map copied_of copies.now)) (listed names.old)) }
{
    for copied in copies {
        add_copied(alloc, copied, names)?;
    }
    Ok(())
}

/// What the items of a scope make, with the variables of the loops in it.
pub(crate) struct Looped<'a, 't> {
    pub(crate) copies: &'a [Copied<'t>],
    table: Places<'t>,
    pub ghost tells: { (q : List ℕ) (token : ℕ) → is_behind table q token ≡ is_used q (nat_lt token) (with_copies (copies_of (map copied_of copies.now)) []) },
}

// A `drop` is written out, so that it is proved once, here.
impl<'a, 't> Drop for Looped<'a, 't> {
    fn drop(self) {
        let Looped {
            copies: _,
            table: _,
        } = self;
    }
}

impl<'a, 't> Looped<'a, 't> {
    ghost use Rattle.v_binding.specs.Signals.{is_loop_variable};

    pub(crate) fn new(alloc: Global, copies: &'a [Copied<'t>]) -> Result<Looped<'a, 't>, NoMemory>
        requires { CopiesStand (copies_of (map copied_of copies.now)) }
        ensures { IfOk result (λ looped. looped.copies.now ≡ copies.now) }
    {
        let mut names = Items::new(alloc);
        add_copies(alloc, copies, &mut names)?;
        let table = last_of_each(alloc, names.as_slice())?;
        Ok(Looped { copies, table })
    }

    /// Whether a loop uses an integer of the scope.
    #[tactic(auto, using(crate::proofs::LoopLaws::among_loops))]
    pub(crate) fn contains(&self, integer: &Identifier) -> bool
        ensures { result ≡ is_loop_variable integer.now (copies_of (map copied_of self.now.copies.now)) }
    {
        is_behind(&self.table, integer)
    }
}
