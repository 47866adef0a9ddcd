//! Statements (IEEE 1364-2005, clause 9) become selections.
ghost use Rattle.std.specs.Prelude.{◌≡◌, ◌^◌, ◌<◌, [], length, IfOk, IsTrue, OnOk};
ghost use Rattle.std.specs.List.{list_all, All};
ghost use Rattle.design_core.specs.WellFormed.{label_fits, typed_fits};
ghost use Rattle.word_net.specs.Build.{made};
ghost use Rattle.node_map.specs.Entries.{put};
ghost use Rattle.synth_parts.specs.Expression.{truth_made, typed_made};
ghost use Rattle.synth_parts.specs.Statement.{Maps as MapsMade, maps, item_test, label_made, merged, statement_made};
ghost use Rattle.synth_parts.specs.Arms.{ArmFits, ItemsFit, StatementFits, StatementsFit, all_made, case_made, closed, condition_made};

use crate::assign::Assignment;
use crate::merge::merge;
use crate::scene::{Nodes, Scene, push, truth, unsigned};
use crate::store::Left;
use crate::typed::expression;
use design_core::{BinaryOp, CaseItem, Label, Stmt, Typed};
use loc_base::{Items, NoMemory};
use node_map::{Kept, Pair};
use word_net::{Operand, Operation};

/// An arm that was run: the node of its condition, and what it left.
pub struct Arm {
    pub test: u32,
    pub kept: Kept,
}

impl Drop for Arm {
    fn drop(self) {
        let Arm { test: _, kept: _ } = self;
    }
}

impl Left<'_> {
    /// The node of an expression as a map lets it be read.
    #[inline(never)]
    pub(crate) fn value(&self, nodes: &mut Nodes, map: &[u32], e: &Typed) -> Result<u32, NoMemory>
        requires few { length self.now.signals.now < 2 ^ 32 }
        requires each { length map.now ≡ length self.now.signals.now }
        requires fits { IsTrue (typed_fits self.now.signals.now e.now) }
        ensures { IfOk result (λ n. made nodes.new n ≡ typed_made self.now.signals.now map.now nodes.old e.now) }
    {
        let at = Scene {
            alloc: self.alloc,
            signals: self.signals,
            nodes_of: map,
        };
        expression(&at, nodes, e)
    }

    /// Whether the subject of a case is equal to a label outside its wild bits.
    #[tactic(auto, using(crate::proofs::StatementSteps::label_steps), unfolding(crate::specs::Statement::label_made))]
    fn label(
        &self,
        nodes: &mut Nodes,
        map: &[u32],
        subject: Operand,
        label: &Label,
    ) -> Result<u32, NoMemory>
        requires few { length self.now.signals.now < 2 ^ 32 }
        requires each { length map.now ≡ length self.now.signals.now }
        requires fits { IsTrue (label_fits self.now.signals.now subject.width label.now) }
        ensures { IfOk result (λ n. made nodes.new n ≡ label_made self.now.signals.now map.now nodes.old subject label.now) }
    {
        let width = subject.width;
        let value = self.value(nodes, map, &label.value)?;
        let wild = push(nodes, width, Operation::Const(label.wild.value()))?;
        let one = Operation::Binary {
            op: BinaryOp::Or,
            left: subject,
            right: unsigned(wild, width),
        };
        let one = push(nodes, width, one)?;
        let other = Operation::Binary {
            op: BinaryOp::Or,
            left: unsigned(value, width),
            right: unsigned(wild, width),
        };
        let other = push(nodes, width, other)?;
        let equal = Operation::Binary {
            op: BinaryOp::Equal,
            left: unsigned(one, width),
            right: unsigned(other, width),
        };
        push(nodes, 1, equal)
    }

    /// Whether it is equal to one of the labels.
    #[inline(never)]
    #[tactic(auto, using(crate::proofs::StatementSteps::labels_steps), unfolding(crate::specs::Statement::item_test))]
    fn test(
        &self,
        nodes: &mut Nodes,
        map: &[u32],
        subject: Operand,
        labels: &[Label],
    ) -> Result<u32, NoMemory>
        requires few { length self.now.signals.now < 2 ^ 32 }
        requires each { length map.now ≡ length self.now.signals.now }
        requires fits { IsTrue (list_all (label_fits self.now.signals.now subject.width) labels.now) }
        ensures { IfOk result (λ n. made nodes.new n ≡ item_test self.now.signals.now map.now nodes.old subject labels.now) }
    {
        let mut so_far = push(nodes, 1, Operation::Const(0))?;
        for i in 0..labels.len() {
            let is = self.label(nodes, map, subject, &labels[i])?;
            let or = Operation::Binary {
                op: BinaryOp::Or,
                left: unsigned(so_far, 1),
                right: unsigned(is, 1),
            };
            so_far = push(nodes, 1, or)?;
        }
        Ok(so_far)
    }

    /// The condition of an `if`: the truth value of its expression.
    #[inline(never)]
    fn condition(&self, nodes: &mut Nodes, map: &[u32], e: &Typed) -> Result<u32, NoMemory>
        requires few { length self.now.signals.now < 2 ^ 32 }
        requires each { length map.now ≡ length self.now.signals.now }
        requires fits { IsTrue (typed_fits self.now.signals.now e.now) }
        ensures { IfOk result (λ n. made nodes.new n ≡ condition_made self.now.signals.now map.now nodes.old e.now) }
    {
        let word = self.value(nodes, map, e)?;
        truth(nodes, word, e.width)
    }

    /// An arm that was run is merged into the other.
    #[inline(never)]
    #[tactic(auto, using(crate::proofs::JoinArms::join_steps))]
    fn join(&self, nodes: &mut Nodes, arm: &Arm, other: &mut Pair) -> Result<(), NoMemory>
        requires few { length self.now.signals.now < 2 ^ 32 }
        requires arm { ArmFits self.now.signals.now arm.now }
        requires current { length other.old.current.now ≡ length self.now.signals.now }
        requires later { length other.old.later.now ≡ length self.now.signals.now }
        ensures ok { OnOk result (maps nodes.new other.new.current.now other.new.later.now
            ≡ merged self.now.signals.now arm.now.test (maps [] (put arm.now.kept.current other.old.current.base) (put arm.now.kept.later other.old.later.base))
            (maps nodes.old other.old.current.now other.old.later.now) 0 (length self.now.signals.now)) }
        ensures base { OnOk result (other.new.current.base ≡ other.old.current.base) }
        ensures base_later { OnOk result (other.new.later.base ≡ other.old.later.base) }
        ensures current { length other.new.current.now ≡ length self.now.signals.now }
        ensures later { length other.new.later.now ≡ length self.now.signals.now }
    {
        let one = other.beside(self.alloc, &arm.kept)?;
        merge(nodes, self.signals, arm.test, &one, other)
    }

    /// The arms of a case become one, the last first.
    #[inline(never)]
    #[tactic(auto, using(crate::proofs::StatementSteps::close_steps))]
    fn close(&self, nodes: &mut Nodes, arms: Items<Arm>, other: &mut Pair) -> Result<(), NoMemory>
        requires few { length self.now.signals.now < 2 ^ 32 }
        requires arms { All (ArmFits self.now.signals.now) arms }
        requires current { length other.old.current.now ≡ length self.now.signals.now }
        requires later { length other.old.later.now ≡ length self.now.signals.now }
        ensures ok { OnOk result (maps nodes.new other.new.current.now other.new.later.now
            ≡ closed self.now.signals.now other.old.current.base other.old.later.base arms (maps nodes.old other.old.current.now other.old.later.now)) }
        ensures base { OnOk result (other.new.current.base ≡ other.old.current.base) }
        ensures base_later { OnOk result (other.new.later.base ≡ other.old.later.base) }
        ensures current { length other.new.current.now ≡ length self.now.signals.now }
        ensures later { length other.new.later.now ≡ length self.now.signals.now }
    {
        let mut left = arms;
        while let Some(arm) = left.pop() {
            self.join(nodes, &arm, other)?;
        }
        Ok(())
    }

    /// The maps after a statement.
    #[cycle(statement)]
    pub fn statement(
        &self,
        nodes: &mut Nodes,
        both: &mut Pair,
        statement: &Stmt,
    ) -> Result<(), NoMemory>
        requires few { length self.now.signals.now < 2 ^ 32 }
        requires current { length both.old.current.now ≡ length self.now.signals.now }
        requires later { length both.old.later.now ≡ length self.now.signals.now }
        requires fits { StatementFits self.now.signals.now statement.now }
        ensures ok { OnOk result (maps nodes.new both.new.current.now both.new.later.now
            ≡ statement_made self.now.signals.now (maps nodes.old both.old.current.now both.old.later.now) statement.now) }
        ensures base { OnOk result (both.new.current.base ≡ both.old.current.base) }
        ensures base_later { OnOk result (both.new.later.base ≡ both.old.later.base) }
        ensures current { length both.new.current.now ≡ length self.now.signals.now }
        ensures later { length both.new.later.now ≡ length self.now.signals.now }
    {
        match statement {
            Stmt::Nothing => Ok(()),
            Stmt::Block(statements) => self.statements(nodes, both, statements),
            Stmt::If { cond, yes, no } => {
                let test = self.condition(nodes, both.current.as_slice(), cond)?;
                let outer = both.begin(self.alloc);
                let arm = self.arm(nodes, both, test, yes)?;
                self.statement(nodes, both, no)?;
                self.join(nodes, &arm, both)?;
                both.end(outer)
            }
            Stmt::Case {
                subject,
                items,
                other,
                wild: _,
            } => {
                let word = self.value(nodes, both.current.as_slice(), subject)?;
                let outer = both.begin(self.alloc);
                let arms = self.arms(nodes, both, unsigned(word, subject.width), items)?;
                self.statement(nodes, both, other)?;
                self.close(nodes, arms, both)?;
                both.end(outer)
            }
            Stmt::Set {
                place,
                target,
                value,
                later,
            } => {
                let set = Assignment {
                    place: *place,
                    parts: target.parts.as_slice(),
                    value,
                    later: *later,
                };
                self.assign(nodes, both, &set)
            }
        }
    }

    /// The maps after statements in order.
    #[cycle(statement)]
    fn statements(
        &self,
        nodes: &mut Nodes,
        both: &mut Pair,
        statements: &[Stmt],
    ) -> Result<(), NoMemory>
        requires few { length self.now.signals.now < 2 ^ 32 }
        requires current { length both.old.current.now ≡ length self.now.signals.now }
        requires later { length both.old.later.now ≡ length self.now.signals.now }
        requires fits { StatementsFit self.now.signals.now statements.now }
        ensures ok { OnOk result (maps nodes.new both.new.current.now both.new.later.now
            ≡ all_made self.now.signals.now (maps nodes.old both.old.current.now both.old.later.now) statements.now) }
        ensures base { OnOk result (both.new.current.base ≡ both.old.current.base) }
        ensures base_later { OnOk result (both.new.later.base ≡ both.old.later.base) }
        ensures current { length both.new.current.now ≡ length self.now.signals.now }
        ensures later { length both.new.later.now ≡ length self.now.signals.now }
    {
        for i in 0..statements.len() {
            self.statement(nodes, both, &statements[i])?;
        }
        Ok(())
    }

    /// An arm is run, and the maps go back to what they were.
    #[cycle(statement)]
    fn arm(
        &self,
        nodes: &mut Nodes,
        both: &mut Pair,
        test: u32,
        statement: &Stmt,
    ) -> Result<Arm, NoMemory>
        requires few { length self.now.signals.now < 2 ^ 32 }
        requires current { length both.old.current.now ≡ length self.now.signals.now }
        requires later { length both.old.later.now ≡ length self.now.signals.now }
        requires begun { both.old.current.base ≡ both.old.current.now }
        requires begun_later { both.old.later.base ≡ both.old.later.now }
        requires fits { StatementFits self.now.signals.now statement.now }
        ensures test { IfOk result (λ arm. arm.test ≡ test) }
        ensures made { IfOk result (λ arm. maps nodes.new (put arm.kept.current both.old.current.now) (put arm.kept.later both.old.later.now)
            ≡ statement_made self.now.signals.now (maps nodes.old both.old.current.now both.old.later.now) statement.now) }
        ensures fits { IfOk result (ArmFits self.now.signals.now) }
        ensures back { OnOk result (both.new ≡ both.old) }
        ensures current { length both.new.current.now ≡ length self.now.signals.now }
        ensures later { length both.new.later.now ≡ length self.now.signals.now }
    {
        self.statement(nodes, both, statement)?;
        let kept = both.take(self.alloc)?;
        Ok(Arm { test, kept })
    }

    /// The arms of a case.
    #[cycle(statement)]
    fn arms(
        &self,
        nodes: &mut Nodes,
        both: &mut Pair,
        subject: Operand,
        items: &[CaseItem],
    ) -> Result<Items<Arm>, NoMemory>
        requires few { length self.now.signals.now < 2 ^ 32 }
        requires current { length both.old.current.now ≡ length self.now.signals.now }
        requires later { length both.old.later.now ≡ length self.now.signals.now }
        requires begun { both.old.current.base ≡ both.old.current.now }
        requires begun_later { both.old.later.base ≡ both.old.later.now }
        requires fits { ItemsFit self.now.signals.now subject.width items.now }
        ensures made { IfOk result (λ arms. (other : MapsMade → MapsMade)
            → closed self.now.signals.now both.old.current.now both.old.later.now arms (other (maps nodes.new both.old.current.now both.old.later.now))
            ≡ case_made self.now.signals.now (maps nodes.old both.old.current.now both.old.later.now) subject items.now other) }
        ensures fits { IfOk result (All (ArmFits self.now.signals.now)) }
        ensures back { OnOk result (both.new ≡ both.old) }
        ensures current { length both.new.current.now ≡ length self.now.signals.now }
        ensures later { length both.new.later.now ≡ length self.now.signals.now }
    {
        let mut arms = Items::new(self.alloc);
        for i in 0..items.len() {
            let item = &items[i];
            let test = self.test(nodes, both.current.as_slice(), subject, &item.labels)?;
            let arm = self.arm(nodes, both, test, &item.body)?;
            arms.push(arm)?;
        }
        Ok(arms)
    }
}
