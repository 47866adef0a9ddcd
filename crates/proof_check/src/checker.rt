ghost use Rattle.std.specs.Prelude.{◌≡◌, ◌+◌, ◌<◌, ◌^◌, ◌↔◌, length, take, IsNone, IfSome, IfOk};
ghost use Rattle.clause_base.specs.Literal.{AreWithin};
ghost use Rattle.clause_base.specs.Acceptance.{clauses_of, IsAccepted, IsLeastRefused, Follows};
ghost use Rattle.proof_check.specs.Marks.{AreStampedUpTo};
ghost use Rattle.proof_check.specs.Claims.{FoundIn, IsPiece};

use crate::claim::{BadStep, Claim, Piece};
use crate::marks::{BLANK, Mark};
use crate::piece::{answer_of, first_refused, whole_of};
use clause_base::{Clause, Form, Log};
use loc_base::NoMemory;
use std::alloc::Global;
use std::marker::Model;

/// The room that the check of a log takes. Contracts see it as the number of variables that it has room for.
#[derive(Drop)]
pub struct Checker {
    marks: Vec<Mark>,
}

impl Model for Checker {
    ghost use Rattle.std.specs.Prelude.{ℕ, ◌-◌, ◌<◌, length};

    ghost Value = { ℕ };

    ghost view = { λ c. length c.marks.items - 1 };

    ghost invariant = { λ c. 0 < length c.marks.items };
}

impl Checker {
    /// A checker for forms of that many variables.
    pub fn new(alloc: Global, vars: u32) -> Result<Checker, NoMemory>
        ensures { IfOk result (λ checker. checker ≡ vars) }
    {
        let marks = vec![in alloc; BLANK; vars as usize + 1]?;
        Ok(Checker { marks })
    }

    /// The first step of the piece that isn't accepted.
    pub(crate) fn first_refused(&mut self, claim: &Claim, piece: Piece) -> Option<BadStep>
        requires piece { IsPiece claim.now.log.now piece }
        requires few { length claim.now.log.now + 1 < 2 ^ 32 }
        requires earlier_within { AreWithin self.old (clauses_of claim.now.form.now.clauses (take piece.from claim.now.log.now)) }
        requires blocks_within { AreWithin self.old claim.now.blocks.now }
        ensures found { FoundIn claim.now.form.now.clauses claim.now.blocks.now claim.now.log.now piece.from piece.end result }
        ensures vars { self.new ≡ self.old }
    {
        clear(&mut self.marks);
        first_refused(&mut self.marks, claim, piece)
    }

    /// The least step that isn't accepted after the form and the blocks; where each step is and blocks are left over,
    /// one more than the number of steps. It takes no memory, and time in proportion to the literals of the clauses that
    /// the chains name.
    pub fn check_log(&mut self, form: &Form, blocks: &[Clause], log: &Log) -> Option<BadStep>
        requires vars { form.now.vars ≡ self.old }
        requires form_within { AreWithin form.now.vars form.now.clauses }
        requires blocks_within { AreWithin form.now.vars blocks.now }
        requires few { length log.now + 1 < 2 ^ 32 }
        ensures accepted { IsNone result ↔ IsAccepted form.now.clauses blocks.now log.now }
        ensures least { IfSome result (λ bad. IsLeastRefused form.now.clauses blocks.now log.now bad.n) }
        ensures sound { IsNone result → Follows form.now.clauses blocks.now log.now }
        ensures vars { self.new ≡ self.old }
    {
        let claim = Claim { form, blocks, log };
        let found = self.first_refused(&claim, whole_of(log));
        answer_of(&claim, found)
    }
}

/// Makes all marks blank.
fn clear(marks: &mut [Mark])
    ensures { AreStampedUpTo 0 marks.new }
{
    for mark in marks.iter_mut() {
        *mark = BLANK;
    }
}
