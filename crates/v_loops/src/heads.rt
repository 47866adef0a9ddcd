//! The heads of loops, those of generates too: the values of their variables, and how many turns there are (IEEE 1364-2005, 9.6
//! and 12.4.1).
ghost use Rattle.std.specs.Prelude.{◌≡◌, Ok, IfOk, IfErr, OnOk};
ghost use Rattle.v_syntax.specs.Tree.{tree_of};
ghost use Rattle.v_syntax.specs.StatementTree.{head_of};
ghost use Rattle.v_scopes.specs.Around.{frames_of};
ghost use Rattle.v_loops.specs.Heads.{IsTurning};
ghost use Rattle.v_hierarchy.specs.Constants.{integer};
ghost use Rattle.v_hierarchy.specs.Frames.{Refuses};
ghost use Rattle.v_hierarchy.specs.Items.{loop_genvar};
ghost use Rattle.v_hierarchy.specs.Unrolled.{at_turn, counted_at, holds_at, steps_itself, begun, stepped, loop_variable};

use v_hierarchy::{ElabErr, Standing, index_of};
use v_scopes::Scopes;
use v_sizes::Const;
use v_syntax::{Expr, Identifier, LoopHead};

/// The most turns of a loop.
pub const MOST_TURNS: u32 = 65536;

/// A value of a loop's variable, and whether a turn begins with it.
#[derive(Clone, Copy)]
pub struct Turning {
    pub value: Const,
    pub runs: bool,
}

/// The whole number that a value of a loop's variable means.
#[tactic(auto, using(crate::proofs::TurningLaws::turning_steps))]
pub fn number_of(value: Const) -> i32
    requires { IsTurning value }
    ensures { result ≡ integer value }
{
    index_of(value).unwrap()
}

/// A value of a loop's variable, where it stands for none yet.
fn counted_at(scopes: &Scopes<'_>, e: &Expr) -> Result<Const, ElabErr>
    ensures ok { IfOk result (λ c. counted_at (frames_of scopes.now) (tree_of e.now) ≡ Ok c) }
    ensures err { IfErr result (λ fault. Refuses (counted_at (frames_of scopes.now) (tree_of e.now)) fault) }
    ensures fits { IfOk result IsTurning }
{
    scopes.counted_at(e)
}

/// Refuses the variable of a loop of statements that isn't declared an integer, or is that of a loop around it.
pub fn loop_variable(scopes: &Scopes<'_>, name: &Identifier) -> Result<(), ElabErr>
    ensures { result ≡ loop_variable (frames_of scopes.now) name.now }
{
    match scopes.find(&name.name) {
        None => Err(ElabErr::UnknownName(name.site.span)),
        Some(Standing::Integer) => Ok(()),
        Some(_) => Err(ElabErr::NotConstant(name.site.span)),
    }
}

/// Refuses the variable of a generate loop that isn't declared a genvar, or is that of a loop around it.
pub fn loop_genvar(scopes: &Scopes<'_>, name: &Identifier) -> Result<(), ElabErr>
    ensures { result ≡ loop_genvar (frames_of scopes.now) name.now }
{
    match scopes.find(&name.name) {
        None => Err(ElabErr::UnknownName(name.site.span)),
        Some(Standing::Genvar) => Ok(()),
        Some(_) => Err(ElabErr::NotConstant(name.site.span)),
    }
}

/// Refuses a head whose step is of another name than its variable.
fn steps_itself(head: &LoopHead) -> Result<(), ElabErr>
    ensures { result ≡ steps_itself (head_of head.now) }
{
    if head.variable.name.as_bytes() == head.next.name.as_bytes() {
        Ok(())
    } else {
        Err(ElabErr::NotConstant(head.next.site.span))
    }
}

/// A value of the variable, where it has another one.
fn counted_at_turn<'t>(
    scopes: &mut Scopes<'t>,
    variable: &'t Identifier,
    value: Const,
    e: &Expr,
) -> Result<Const, ElabErr>
    requires { IsTurning value }
    ensures ok { IfOk result (λ c. counted_at (at_turn variable.now value (frames_of scopes.old)) (tree_of e.now) ≡ Ok c) }
    ensures err { IfErr result (λ fault. Refuses (counted_at (at_turn variable.now value (frames_of scopes.old)) (tree_of e.now)) fault) }
    ensures same { OnOk result (frames_of scopes.new ≡ frames_of scopes.old) }
    ensures fits { IfOk result IsTurning }
{
    scopes.at_turn(variable, value)?;
    let counted = counted_at(scopes, e)?;
    let _own = scopes.leave();
    Ok(counted)
}

/// Whether a condition holds, where the variable has a value.
fn holds_at_turn<'t>(
    scopes: &mut Scopes<'t>,
    variable: &'t Identifier,
    value: Const,
    condition: &Expr,
) -> Result<bool, ElabErr>
    requires { IsTurning value }
    ensures ok { IfOk result (λ holds. holds_at (at_turn variable.now value (frames_of scopes.old)) (tree_of condition.now) ≡ Ok holds) }
    ensures err { IfErr result (λ fault. Refuses (holds_at (at_turn variable.now value (frames_of scopes.old)) (tree_of condition.now)) fault) }
    ensures same { OnOk result (frames_of scopes.new ≡ frames_of scopes.old) }
{
    scopes.at_turn(variable, value)?;
    let holds = scopes.holds_at(condition)?;
    let _own = scopes.leave();
    Ok(holds)
}

/// The value with which a loop begins, and whether it begins.
pub fn begun<'t>(scopes: &mut Scopes<'t>, head: &'t LoopHead) -> Result<Turning, ElabErr>
    ensures ok { IfOk result (λ first. begun (frames_of scopes.old) (head_of head.now) ≡ Ok (first.value, first.runs)) }
    ensures err { IfErr result (λ fault. Refuses (begun (frames_of scopes.old) (head_of head.now)) fault) }
    ensures same { OnOk result (frames_of scopes.new ≡ frames_of scopes.old) }
    ensures fits { IfOk result (λ first. IsTurning first.value) }
{
    let value = counted_at(scopes, &head.start)?;
    let runs = holds_at_turn(scopes, &head.variable, value, &head.condition)?;
    steps_itself(head)?;
    Ok(Turning { value, runs })
}

/// The value of the next turn, and whether there is one.
pub fn stepped<'t>(
    scopes: &mut Scopes<'t>,
    head: &'t LoopHead,
    value: Const,
) -> Result<Turning, ElabErr>
    requires { IsTurning value }
    ensures ok { IfOk result (λ next. stepped (frames_of scopes.old) (head_of head.now) value ≡ Ok (next.value, next.runs)) }
    ensures err { IfErr result (λ fault. Refuses (stepped (frames_of scopes.old) (head_of head.now) value) fault) }
    ensures same { OnOk result (frames_of scopes.new ≡ frames_of scopes.old) }
    ensures fits { IfOk result (λ next. IsTurning next.value) }
{
    let next = counted_at_turn(scopes, &head.variable, value, &head.step)?;
    let runs = holds_at_turn(scopes, &head.variable, next, &head.condition)?;
    Ok(Turning { value: next, runs })
}
