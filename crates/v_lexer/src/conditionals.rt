//! The conditionals that are open (IEEE 1364-2005, 19.4).
ghost use Rattle.std.specs.Prelude.{◌≡◌, [], ◌∷◌, OnOk, IfSome, IfNone};
ghost use Rattle.v_lexer.specs.Conditionals as conditional;

use loc_base::{NoMemory, Span};
use std::alloc::Global;
use std::marker::Model;

/// How far a conditional has come.
#[derive(Clone, Copy)]
pub enum Arm {
    /// The part that is being read is taken.
    Taken,
    /// No part was taken yet, and this one isn't.
    Waiting,
    /// A part was taken before, and this one isn't.
    Over,
    /// It stands inside a part that isn't taken.
    Nested,
}

/// The arm that stands behind another, by whether its condition holds.
pub fn next_arm(arm: Arm, holds: bool) -> Arm
    ensures { result ≡ conditional.next_arm arm holds }
{
    match arm {
        Arm::Waiting => { if holds { Arm::Taken } else { Arm::Waiting } }
        Arm::Taken | Arm::Over => Arm::Over,
        Arm::Nested => Arm::Nested,
    }
}

/// Whether a conditional stands inside a part that isn't taken.
pub fn is_nested(arm: Arm) -> bool
    ensures { result ≡ conditional.is_nested arm }
{
    match arm {
        Arm::Nested => true,
        Arm::Taken | Arm::Waiting | Arm::Over => false,
    }
}

fn is_taken(arm: Arm) -> bool
    ensures { result ≡ conditional.is_taken arm }
{
    match arm {
        Arm::Taken => true,
        Arm::Nested | Arm::Waiting | Arm::Over => false,
    }
}

/// An open conditional.
#[derive(Clone, Copy)]
pub struct Conditional {
    /// The backtick and the word that opened it.
    pub opener: Span,
    pub arm: Arm,
    /// Whether its `else` was met.
    pub is_last: bool,
}

/// The open conditionals. Contracts see them from the innermost outwards.
#[derive(Drop)]
pub struct Conditionals {
    /// From the outermost inwards.
    items: Vec<Conditional>,
}

impl Model for Conditionals {
    ghost use Rattle.std.specs.Prelude.{List, reverse};
    ghost use Rattle.v_lexer.specs.declared.conditionals.Conditional.{Conditional};

    ghost Value = { List Conditional };

    ghost view = { λ c. reverse c.items.items };
}

impl Conditionals {
    /// No conditionals. It takes no memory.
    pub fn new(alloc: Global) -> Conditionals
        ensures { result ≡ [] }
    {
        Conditionals {
            items: Vec::new(alloc),
        }
    }

    /// Whether a part is open that isn't taken.
    #[tactic(auto, using(crate::proofs::ConditionalRows::conditional_rows))]
    pub fn is_skipping(&self) -> bool
        ensures { result ≡ conditional.is_skipping self.now }
    {
        match self.items.last() {
            None => false,
            Some(inner) => !is_taken(inner.arm),
        }
    }

    /// The conditional that was opened first.
    #[tactic(auto, using(crate::proofs::ConditionalRows::conditional_rows))]
    pub fn outermost(&self) -> Option<Conditional>
        ensures { result ≡ conditional.outermost self.now }
    {
        self.items.first().copied()
    }

    /// Opens a conditional inside the others.
    #[tactic(auto, using(crate::proofs::ConditionalRows::conditional_rows))]
    pub fn push(&mut self, conditional: Conditional) -> Result<(), NoMemory>
        ensures { OnOk result (self.new ≡ conditional ∷ self.old) }
    {
        self.items.push(conditional)?;
        Ok(())
    }

    /// Closes the innermost conditional.
    #[tactic(auto, using(crate::proofs::ConditionalRows::conditional_rows))]
    pub fn pop(&mut self) -> Option<Conditional>
        ensures some { IfSome result (λ inner. self.old ≡ inner ∷ self.new) }
        ensures none { IfNone result (self.old ≡ []) }
    {
        self.items.pop()
    }
}
