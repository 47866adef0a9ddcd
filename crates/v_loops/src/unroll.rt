//! Statements whose loops are unrolled (IEEE 1364-2005, 9.6): at each turn the variable is a constant.
ghost use Rattle.std.specs.Prelude.{◌≡◌, map, Ok, IfOk, IfErr, OnOk};
ghost use Rattle.v_syntax.specs.Tree.{tree_of};
ghost use Rattle.v_syntax.specs.StatementTree.{statement_of, statements_of, case_item_of, case_items_of, head_of};
ghost use Rattle.v_scopes.specs.Around.{frames_of};
ghost use Rattle.v_hierarchy.specs.Frames.{Refuses};
ghost use Rattle.v_hierarchy.specs.Views.{steps_of, step_list_of, arm_of, arms_of, turn_of, turns_of};
ghost use Rattle.v_hierarchy.specs.Unrolled.{branch, unrolled, unrolled_all, unrolled_arms};
ghost use Rattle.v_loops.specs.Heads.{IsTurning};
ghost use Rattle.v_loops.specs.Loops.{loop_arm, loop_turns, loop_unrolled, one_turn};

use crate::heads::{MOST_TURNS, Turning, begun, loop_variable, stepped};
use crate::position::Position;
use loc_base::{Boxed, Items, NoMemory, Span};
use std::alloc::Global;
use v_hierarchy::{Arm, ElabErr, Steps, Turn};
use v_sizes::Const;
use v_syntax::{CaseItem, Expr, LoopHead, Statement};

/// A condition with its arms.
#[tactic(auto, using(crate::proofs::StatementViews::made_steps))]
fn branch<'t>(
    alloc: Global,
    condition: &'t Expr,
    then: Steps<'t>,
    other: Steps<'t>,
) -> Result<Steps<'t>, NoMemory>
    ensures { IfOk result (λ steps. steps_of steps ≡ branch (tree_of condition.now) (steps_of then.entry) (steps_of other.entry)) }
{
    let then = Boxed::new(alloc, then)?;
    let other = Boxed::new(alloc, other)?;
    Ok(Steps::Branch {
        condition,
        then,
        other,
    })
}

impl<'t> Position<'t> {
    /// Statements in order.
    #[cycle(unrolled)]
    #[tactic(auto, using(crate::proofs::GatherSteps::statement_list_steps))]
    fn unrolled_all(&mut self, statements: &'t [Statement]) -> Result<Items<Steps<'t>>, ElabErr>
        ensures ok { IfOk result (λ steps. unrolled_all (frames_of self.old.scopes) (statements_of (map statement_of statements.now)) self.old.left ≡ Ok (step_list_of (map steps_of steps), self.new.left)) }
        ensures err { IfErr result (λ fault. Refuses (unrolled_all (frames_of self.old.scopes) (statements_of (map statement_of statements.now)) self.old.left) fault) }
        ensures same { OnOk result (frames_of self.new.scopes ≡ frames_of self.old.scopes) }
    {
        let mut all = Items::new(self.alloc);
        for statement in statements {
            let steps = self.unrolled(statement)?;
            all.push(steps)?;
        }
        Ok(all)
    }

    /// An arm of a case.
    #[cycle(unrolled)]
    #[tactic(auto, using(crate::proofs::StatementViews::arm_steps))]
    fn unrolled_arm(&mut self, item: &'t CaseItem) -> Result<Arm<'t>, ElabErr>
        ensures ok { IfOk result (λ arm. loop_arm (frames_of self.old.scopes) (case_item_of item.now) self.old.left ≡ Ok (arm_of arm, self.new.left)) }
        ensures err { IfErr result (λ fault. Refuses (loop_arm (frames_of self.old.scopes) (case_item_of item.now) self.old.left) fault) }
        ensures same { OnOk result (frames_of self.new.scopes ≡ frames_of self.old.scopes) }
    {
        match item {
            CaseItem::Labels { labels, body, .. } => {
                let body = self.unrolled(body)?;
                Ok(Arm::Labels { labels, body })
            }
            CaseItem::Default { body, .. } => {
                let body = self.unrolled(body)?;
                Ok(Arm::Default(body))
            }
        }
    }

    /// The arms of a case in order.
    #[cycle(unrolled)]
    #[tactic(auto, using(crate::proofs::GatherSteps::arm_list_steps))]
    fn unrolled_arms(&mut self, items: &'t [CaseItem]) -> Result<Items<Arm<'t>>, ElabErr>
        ensures ok { IfOk result (λ arms. unrolled_arms (frames_of self.old.scopes) (case_items_of (map case_item_of items.now)) self.old.left ≡ Ok (arms_of (map arm_of arms), self.new.left)) }
        ensures err { IfErr result (λ fault. Refuses (unrolled_arms (frames_of self.old.scopes) (case_items_of (map case_item_of items.now)) self.old.left) fault) }
        ensures same { OnOk result (frames_of self.new.scopes ≡ frames_of self.old.scopes) }
    {
        let mut all = Items::new(self.alloc);
        for item in items {
            let arm = self.unrolled_arm(item)?;
            all.push(arm)?;
        }
        Ok(all)
    }

    /// One turn of a loop, with its variable's value.
    #[cycle(unrolled)]
    #[tactic(auto, using(crate::proofs::StatementViews::made_steps))]
    fn unrolled_turn(
        &mut self,
        body: &'t Statement,
        head: &'t LoopHead,
        span: Span,
        value: Const,
    ) -> Result<Turn<'t>, ElabErr>
        requires { IsTurning value }
        ensures ok { IfOk result (λ turn. one_turn (frames_of self.old.scopes) span (head_of head.now) (statement_of body.now) value self.old.left ≡ Ok (turn_of turn, self.new.left)) }
        ensures err { IfErr result (λ fault. Refuses (one_turn (frames_of self.old.scopes) span (head_of head.now) (statement_of body.now) value self.old.left) fault) }
        ensures same { OnOk result (frames_of self.new.scopes ≡ frames_of self.old.scopes) }
    {
        self.left = self.left.turned(span)?;
        self.scopes.at_turn(&head.variable, value)?;
        let body = self.unrolled(body)?;
        let _own = self.scopes.leave();
        Ok(Turn { value, body })
    }

    /// The turns of a loop, from the first.
    #[cycle(unrolled)]
    #[tactic(auto, using(crate::proofs::GatherSteps::turn_steps))]
    fn unrolled_turns(
        &mut self,
        body: &'t Statement,
        head: &'t LoopHead,
        span: Span,
        first: Turning,
    ) -> Result<Items<Turn<'t>>, ElabErr>
        requires { IsTurning first.value }
        ensures ok { IfOk result (λ turns. loop_turns (frames_of self.old.scopes) span (head_of head.now) (statement_of body.now) (first.value, first.runs) self.old.left ≡ Ok (record { met = turns_of (map turn_of turns); left = self.new.left })) }
        ensures err { IfErr result (λ fault. Refuses (loop_turns (frames_of self.old.scopes) span (head_of head.now) (statement_of body.now) (first.value, first.runs) self.old.left) fault) }
        ensures same { OnOk result (frames_of self.new.scopes ≡ frames_of self.old.scopes) }
    {
        let mut turns = Items::new(self.alloc);
        let mut next = first;
        for _turn in 0..MOST_TURNS {
            if !next.runs {
                return Ok(turns);
            }
            let turn = self.unrolled_turn(body, head, span, next.value)?;
            turns.push(turn)?;
            next = stepped(&mut self.scopes, head, next.value)?;
        }
        if next.runs {
            return Err(ElabErr::Turns(span));
        }
        Ok(turns)
    }

    /// A loop.
    #[cycle(unrolled)]
    #[tactic(auto, using(crate::proofs::StatementViews::made_steps))]
    fn unrolled_loop(
        &mut self,
        body: &'t Statement,
        head: &'t LoopHead,
        span: Span,
    ) -> Result<Steps<'t>, ElabErr>
        ensures ok { IfOk result (λ steps. loop_unrolled (frames_of self.old.scopes) span (head_of head.now) (statement_of body.now) self.old.left ≡ Ok (steps_of steps, self.new.left)) }
        ensures err { IfErr result (λ fault. Refuses (loop_unrolled (frames_of self.old.scopes) span (head_of head.now) (statement_of body.now) self.old.left) fault) }
        ensures same { OnOk result (frames_of self.new.scopes ≡ frames_of self.old.scopes) }
    {
        let variable = &head.variable;
        loop_variable(&self.scopes, variable)?;
        let first = begun(&mut self.scopes, head)?;
        let turns = self.unrolled_turns(body, head, span, first)?;
        Ok(Steps::Repeated { variable, turns })
    }

    /// A statement with its loops unrolled.
    #[cycle(unrolled)]
    #[tactic(auto, using(crate::proofs::StatementViews::statement_steps))]
    pub fn unrolled(&mut self, statement: &'t Statement) -> Result<Steps<'t>, ElabErr>
        ensures ok { IfOk result (λ steps. unrolled (frames_of self.old.scopes) (statement_of statement.now) self.old.left ≡ Ok (steps_of steps, self.new.left)) }
        ensures err { IfErr result (λ fault. Refuses (unrolled (frames_of self.old.scopes) (statement_of statement.now) self.old.left) fault) }
        ensures same { OnOk result (frames_of self.new.scopes ≡ frames_of self.old.scopes) }
    {
        match statement {
            Statement::Empty { .. } => Ok(Steps::Nothing),
            Statement::Block { body, .. } => {
                let steps = self.unrolled_all(body.as_slice())?;
                Ok(Steps::Run(steps))
            }
            Statement::Delayed { body, .. } => self.unrolled(body),
            Statement::If {
                condition,
                then,
                other: None,
                ..
            } => {
                let then = self.unrolled(then)?;
                let steps = branch(self.alloc, condition, then, Steps::Nothing)?;
                Ok(steps)
            }
            Statement::If {
                condition,
                then,
                other: Some(other),
                ..
            } => {
                let then = self.unrolled(then)?;
                let other = self.unrolled(other)?;
                let steps = branch(self.alloc, condition, then, other)?;
                Ok(steps)
            }
            Statement::Case {
                kind,
                subject,
                items,
                ..
            } => {
                let arms = self.unrolled_arms(items.as_slice())?;
                Ok(Steps::Choose {
                    kind: *kind,
                    subject,
                    arms,
                })
            }
            Statement::For { site, head, body } => self.unrolled_loop(body, head, site.span),
            Statement::Assign { .. } => Ok(Steps::Still(statement)),
        }
    }
}
