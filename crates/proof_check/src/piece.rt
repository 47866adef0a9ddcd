//! The steps of a log, one after another.

ghost use Rattle.std.specs.Prelude.{◌≡◌, ◌+◌, ◌<◌, ◌^◌, ◌↔◌, [], length, take, cond, slice_index_or, IsTrue, IsNone};
ghost use Rattle.clause_base.specs.Acceptance.{clauses_of, blocks_in, is_block_kind, IsAcceptedAt, Follows};
ghost use Rattle.proof_check.specs.Marks.{AreStampedUpTo, AreInTable};
ghost use Rattle.proof_check.specs.Claims.{Answers, AreAccepted, FoundIn, IsPiece};

use crate::chain::is_given;
use crate::claim::{BadStep, Claim, Piece};
use crate::marks::Mark;
use clause_base::{Clause, Lit, Log, StepKind};

/// Whether the clause is the block after the first `seen` ones.
fn is_next_block(blocks: &[Clause], seen: usize, clause: &[Lit]) -> bool
    ensures { IsTrue result ↔ ((seen < length blocks.now) × (clause.now ≡ slice_index_or blocks.now seen [])) }
{
    match blocks.get(seen) {
        Some(block) => block.literals() == clause,
        None => false,
    }
}

/// Whether the step at `place` is accepted after those before it, of which `seen` are blocks.
fn is_accepted(marks: &mut [Mark], claim: &Claim, place: usize, seen: usize) -> bool
    requires place { place < length claim.now.log.now }
    requires few { length claim.now.log.now < 2 ^ 32 }
    requires seen { seen ≡ blocks_in (take place claim.now.log.now) }
    requires stamps { AreStampedUpTo place marks.old }
    requires in_table { AreInTable marks.old (clauses_of claim.now.form.now.clauses (take place claim.now.log.now)) }
    ensures accepted { IsTrue result ↔ IsAcceptedAt claim.now.form.now.clauses claim.now.blocks.now claim.now.log.now place }
    ensures stamps { AreStampedUpTo (place + 1) marks.new }
{
    match claim.log.kind(place) {
        StepKind::Block => is_next_block(claim.blocks, seen, claim.log.clause(place)),
        StepKind::Learned | StepKind::Derived => is_given(
            marks,
            &claim.form.clauses,
            claim.log,
            place,
        ),
    }
}

/// How many blocks there are with a step of that kind after `seen` of them.
fn with_step(seen: usize, kind: StepKind) -> usize
    requires { seen < 2 ^ 63 }
    ensures { result ≡ seen + cond (is_block_kind kind) 1 0 }
{
    match kind {
        StepKind::Block => seen + 1,
        StepKind::Learned | StepKind::Derived => seen,
    }
}

/// How many blocks stand before the end of the piece.
pub(crate) fn blocks_up_to_end(log: &Log, piece: Piece) -> usize
    requires piece { IsPiece log.now piece }
    requires few { length log.now < 2 ^ 32 }
    ensures { result ≡ blocks_in (take piece.end log.now) }
{
    let mut seen = piece.seen;
    for place in piece.from..piece.end {
        seen = with_step(seen, log.kind(place));
    }
    seen
}

/// The first step of the piece that isn't accepted.
pub(crate) fn first_refused(marks: &mut [Mark], claim: &Claim, piece: Piece) -> Option<BadStep>
    requires piece { IsPiece claim.now.log.now piece }
    requires few { length claim.now.log.now < 2 ^ 32 }
    requires stamps { AreStampedUpTo piece.from marks.old }
    requires earlier_in_table { AreInTable marks.old (clauses_of claim.now.form.now.clauses (take piece.from claim.now.log.now)) }
    requires blocks_in_table { AreInTable marks.old claim.now.blocks.now }
    ensures { FoundIn claim.now.form.now.clauses claim.now.blocks.now claim.now.log.now piece.from piece.end result }
{
    let mut seen = piece.seen;
    for place in piece.from..piece.end {
        if !is_accepted(marks, claim, place, seen) {
            return Some(BadStep {
                n: place as u32 + 1,
            });
        }
        seen = with_step(seen, claim.log.kind(place));
    }
    None
}

/// All steps of a log as one piece.
pub(crate) fn whole_of(log: &Log) -> Piece
    ensures piece { IsPiece log.now result }
    ensures from { result.from ≡ 0 }
    ensures end { result.end ≡ length log.now }
{
    Piece {
        from: 0,
        end: log.len(),
        seen: 0,
    }
}

/// The answer where each step is accepted: the number after the last one where blocks are left over.
fn left_over(claim: &Claim) -> Option<BadStep>
    requires few { length claim.now.log.now + 1 < 2 ^ 32 }
    requires accepted { AreAccepted claim.now.form.now.clauses claim.now.blocks.now claim.now.log.now 0 (length claim.now.log.now) }
    ensures { Answers claim.now.form.now.clauses claim.now.blocks.now claim.now.log.now result }
{
    let seen = blocks_up_to_end(claim.log, whole_of(claim.log));
    if seen < claim.blocks.len() {
        return Some(BadStep {
            n: claim.log.len() as u32 + 1,
        });
    }
    None
}

/// The answer for the whole log, `found` being the first of its steps that isn't accepted.
pub(crate) fn answer_of(claim: &Claim, found: Option<BadStep>) -> Option<BadStep>
    requires few { length claim.now.log.now + 1 < 2 ^ 32 }
    requires found { FoundIn claim.now.form.now.clauses claim.now.blocks.now claim.now.log.now 0 (length claim.now.log.now) found }
    ensures answers { Answers claim.now.form.now.clauses claim.now.blocks.now claim.now.log.now result }
    ensures sound { IsNone result → Follows claim.now.form.now.clauses claim.now.blocks.now claim.now.log.now }
{
    // With the numbers of clauses and steps comes that no clause has a variable twice.
    let _clauses = claim.form.clauses.len();
    let _steps = claim.log.len();
    match found {
        Some(bad) => Some(bad),
        None => left_over(claim),
    }
}
