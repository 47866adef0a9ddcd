//! The check of a log in pieces, by several workers.

ghost use Rattle.std.specs.Prelude.{◌≡◌, ◌<◌, ◌≤◌, ◌+◌, ◌^◌, ◌↔◌, [], ◌∷◌, length, All, IsNone, IfSome, IfOk};
ghost use Rattle.clause_base.specs.Literal.{AreWithin};
ghost use Rattle.clause_base.specs.Acceptance.{IsAccepted, IsLeastRefused, Follows};
ghost use Rattle.proof_check.specs.Claims.{AreKnown, Cover, FoundAfter, FoundIn, IsPiece};
ghost use Rattle.proof_check.specs.Pieced.{AreFound, CanSearch, first_of};

use crate::checker::Checker;
use crate::claim::{BadStep, Claim, Piece};
use crate::piece::{answer_of, blocks_up_to_end};
use clause_base::{Form, Log, is_within};
use loc_base::{Gate, NoMemory, Workers};
use std::alloc::Global;
use std::thread::{Threads, map_chunks};

/// How many steps stand before the first one with a variable that the form doesn't have.
fn known_steps(form: &Form, log: &Log) -> usize
    requires { AreWithin form.now.vars form.now.clauses }
    ensures { AreKnown form.now.vars form.now.clauses log.now result }
{
    for place in 0..log.len() {
        if !is_within(log.clause(place), form.vars) {
            return place;
        }
    }
    log.len()
}

/// How many steps each piece but the last has.
fn piece_length(steps: usize, workers: u32) -> usize
    requires some { 0 < workers }
    requires few { steps < 2 ^ 32 }
    ensures some { 0 < result }
    ensures few { result < 2 ^ 32 }
{
    steps.div_ceil(workers as usize).max(1)
}

/// The steps of the log in pieces of so many steps; the last may be shorter.
fn pieces_of(alloc: Global, log: &Log, size: usize) -> Result<Vec<Piece>, NoMemory>
    requires some { 0 < size }
    requires few { size < 2 ^ 32 }
    requires steps { length log.now < 2 ^ 32 }
    ensures pieces { IfOk result (λ pieces. All (IsPiece log.now) pieces.items) }
    ensures cover { IfOk result (λ pieces. Cover 0 (length log.now) pieces.items) }
    ensures few { IfOk result (λ pieces. length pieces.items < 2 ^ 32) }
{
    let mut pieces = Vec::new(alloc);
    let mut from = 0;
    let mut seen = 0;
    while from < log.len() {
        let piece = Piece {
            from,
            end: log.len().min(from + size),
            seen,
        };
        pieces.push(piece)?;
        seen = blocks_up_to_end(log, piece);
        from = piece.end;
    }
    Ok(pieces)
}

/// The first step of a piece that isn't accepted, where those before the piece are. A piece behind a step with a variable
/// that the form doesn't have isn't gone over: that step is refused before.
fn check_piece(
    alloc: Global,
    claim: &Claim,
    known: usize,
    piece: Piece,
) -> Result<Option<BadStep>, NoMemory>
    requires can { CanSearch claim.now.form.now claim.now.blocks.now claim.now.log.now known }
    requires piece { IsPiece claim.now.log.now piece }
    ensures { IfOk result (FoundAfter claim.now.form.now.clauses claim.now.blocks.now claim.now.log.now piece.from piece.end) }
{
    if known < piece.from {
        return Ok(None);
    }
    let mut checker = Checker::new(alloc, claim.form.vars)?;
    Ok(checker.first_refused(claim, piece))
}

/// The first answer that isn't that nothing was found.
fn first_found(answers: &[Result<Option<BadStep>, NoMemory>]) -> Result<Option<BadStep>, NoMemory>
    ensures { result ≡ first_of answers.now }
{
    match answers.split_first() {
        Some((first, rest)) => match first {
            Ok(None) => first_found(rest),
            Ok(Some(found)) => Ok(Some(*found)),
            Err(e) => Err(*e),
        },
        None => Ok(None),
    }
}

/// The only piece of a list.
fn only_piece(pieces: &[Piece]) -> Piece
    requires { length pieces.now ≡ 1 }
    ensures { pieces.now ≡ result ∷ [] }
{
    pieces[0]
}

/// The first step that isn't accepted, each piece being checked by a worker.
fn search_pieces<R: Threads + Sync, G: Gate + Sync>(
    alloc: Global,
    workers: &Workers<'_, R, G>,
    claim: &Claim<'_>,
    pieces: &[Piece],
) -> Result<Option<BadStep>, NoMemory>
    requires form_within { AreWithin claim.now.form.now.vars claim.now.form.now.clauses }
    requires blocks_within { AreWithin claim.now.form.now.vars claim.now.blocks.now }
    requires steps { length claim.now.log.now + 1 < 2 ^ 32 }
    requires pieces { All (IsPiece claim.now.log.now) pieces.now }
    requires cover { Cover 0 (length claim.now.log.now) pieces.now }
    requires few { length pieces.now < 2 ^ 32 }
    ensures { IfOk result (FoundIn claim.now.form.now.clauses claim.now.blocks.now claim.now.log.now 0 (length claim.now.log.now)) }
{
    let known = known_steps(claim.form, claim.log);
    let gate = workers.gate;
    let form = claim.form;
    let blocks = claim.blocks;
    let log = claim.log;
    let search = |number: usize, part: &[Piece]| -> Result<Option<BadStep>, NoMemory>
        requires { CanSearch form.now blocks.now log.now known × All (IsPiece log.now) part.now × (length part.now ≡ 1) × (number < 2 ^ 32) }
        ensures { IfOk result (AreFound form.entry.now blocks.entry.now log.entry.now part.now) }
    {
        gate.enter(number as u32);
        let claim = Claim { form, blocks, log };
        check_piece(alloc, &claim, known, only_piece(part))
    };
    let answers = map_chunks(workers.runtime, alloc, pieces, 1, &search)?;
    first_found(&answers)
}

/// What `Checker::check_log` answers, by so many workers: the same for every number of workers and every gate. The log is
/// cut into as many pieces as there are workers, or fewer, each of which passes the gate once and has a checker of its own.
pub fn check_log_parallel<R: Threads + Sync, G: Gate + Sync>(
    alloc: Global,
    workers: &Workers<'_, R, G>,
    claim: &Claim<'_>,
) -> Result<Option<BadStep>, NoMemory>
    requires form_within { AreWithin claim.now.form.now.vars claim.now.form.now.clauses }
    requires blocks_within { AreWithin claim.now.form.now.vars claim.now.blocks.now }
    requires few { length claim.now.log.now + 1 < 2 ^ 32 }
    requires some { 0 < workers.now.count }
    requires most { workers.now.count ≤ 64 }
    ensures accepted { IfOk result (λ found. IsNone found ↔ IsAccepted claim.now.form.now.clauses claim.now.blocks.now claim.now.log.now) }
    ensures least { IfOk result (λ found. IfSome found (λ bad. IsLeastRefused claim.now.form.now.clauses claim.now.blocks.now claim.now.log.now bad.n)) }
    ensures sound { IfOk result (λ found. IsNone found → Follows claim.now.form.now.clauses claim.now.blocks.now claim.now.log.now) }
{
    let size = piece_length(claim.log.len(), workers.count);
    let pieces = pieces_of(alloc, claim.log, size)?;
    let found = search_pieces(alloc, workers, claim, &pieces)?;
    Ok(answer_of(claim, found))
}
