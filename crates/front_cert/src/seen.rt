//! What some of the steps of a log show.

ghost use Rattle.std.specs.Prelude.{◌≡◌, ◌≤◌, ◌<◌, ◌||◌, ℕ, false, length, IfOk, OnOk};
ghost use Rattle.front_cert.specs.Reaches.{IsAdded, IsJoined, IsSeen, JoinsPart, covers, greatest, is_shown};

use crate::reach::{Reach, Target, is_alone, reach_of};
use clause_base::{Lit, Log};
use loc_base::NoMemory;
use std::alloc::Global;

/// What steps show of a target.
#[derive(Drop)]
pub(crate) struct Seen {
    /// Whether there is no smaller set.
    pub(crate) alone: bool,
    /// The suspects above this number are absent.
    pub(crate) above: u32,
    /// Whether a suspect is absent, by its number.
    pub(crate) only: Vec<bool>,
}

impl Seen {
    /// Nothing, of the suspects below `size`.
    pub(crate) fn nothing(alloc: Global, size: u32) -> Result<Seen, NoMemory>
        ensures alone { IfOk result (λ seen. seen.alone ≡ false) }
        ensures room { IfOk result (λ seen. length seen.only.items ≡ size) }
        ensures none { IfOk result (λ seen. (x : ℕ) → x < size → is_shown seen x ≡ false) }
    {
        Ok(Seen {
            alone: false,
            above: size,
            only: vec![in alloc; false; size as usize]?,
        })
    }

    /// With the suspects of a reach.
    fn mark(&mut self, reach: Reach)
        ensures room { length self.new.only.items ≡ length self.old.only.items }
        ensures alone { self.new.alone ≡ self.old.alone }
        ensures shown { (x : ℕ) → x < length self.old.only.items → is_shown self.new x ≡ (is_shown self.old x || covers reach x) }
    {
        match reach {
            Reach::Nothing => {}
            Reach::Only { x, low } => {
                if low < x && (x as usize) < self.only.len() {
                    self.only[x as usize] = true;
                }
            }
            Reach::Above { low } => self.above = self.above.min(low),
        }
    }

    /// With what one clause shows.
    fn add(&mut self, target: &Target, clause: &[Lit])
        ensures { IsAdded target.now clause.now self.old self.new }
    {
        if is_alone(target.least, clause) {
            self.alone = true;
        }
        self.mark(reach_of(target, clause));
    }

    /// Whether the suspect was shown absent.
    pub(crate) fn is_shown(&self, x: u32) -> bool
        requires { x < length self.now.only.items }
        ensures { result ≡ is_shown self.now x }
    {
        self.only[x as usize] || self.above < x
    }

    /// With what other steps show.
    #[tactic(auto, using(crate::proofs::Seeing::joined))]
    pub(crate) fn join(&mut self, other: &Seen)
        requires { length other.now.only.items ≡ length self.old.only.items }
        ensures { IsJoined self.old other.now self.new }
    {
        self.alone = self.alone || other.alone;
        self.above = self.above.min(other.above);
        for x in 0..self.only.len() {
            if other.only[x] {
                self.only[x] = true;
            }
        }
    }

    /// With what a worker saw, where it did.
    pub(crate) fn join_part(&mut self, part: &Result<Seen, NoMemory>) -> Result<(), NoMemory>
        requires { IfOk part.now (λ other. length other.only.items ≡ length self.old.only.items) }
        ensures { OnOk result (JoinsPart self.old part.now self.new) }
    {
        match part {
            Ok(other) => {
                self.join(other);
                Ok(())
            }
            Err(e) => Err(*e),
        }
    }
}

/// Steps of a log: those from one place up to another.
#[derive(Clone, Copy)]
pub(crate) struct Piece {
    pub(crate) from: usize,
    pub(crate) to: usize,
}

/// What the steps of a piece show.
#[tactic(auto, using(crate::proofs::Seeing::see_rules))]
pub(crate) fn see(alloc: Global, target: &Target, log: &Log, piece: Piece) -> Result<Seen, NoMemory>
    requires ordered { piece.from ≤ piece.to }
    requires within { piece.to ≤ length log.now }
    ensures { IfOk result (IsSeen target.now.members.now target.now.least target.now.more log.now piece.from piece.to) }
{
    let mut seen = Seen::nothing(alloc, greatest(target.members))?;
    for place in piece.from..piece.to {
        seen.add(target, log.clause(place));
    }
    Ok(seen)
}

/// The greatest member, 0 where there is none.
pub(crate) fn greatest(members: &[u32]) -> u32
    ensures { result ≡ greatest members.now }
{
    match members.last() {
        Some(last) => *last,
        None => 0,
    }
}
