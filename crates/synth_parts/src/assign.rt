//! Procedural assignments (IEEE 1364-2005, 9.2).
ghost use Rattle.std.specs.Prelude.{◌≡◌, ◌^◌, ◌<◌, length, IsTrue, OnOk};
ghost use Rattle.design_core.specs.WellFormed.{assignment_fits};
ghost use Rattle.synth_parts.specs.Statement.{maps, set_made};

use crate::scene::{Nodes, Scene, push, unsigned};
use crate::store::{Left, Sides, indexes};
use crate::typed::expression;
use design_core::{Part, Typed};
use loc_base::NoMemory;
use node_map::Pair;
use word_net::Operation;

/// An assignment: its place, its left side, its value, and whether it is nonblocking.
#[derive(Clone, Copy, Drop)]
pub(crate) struct Assignment<'a> {
    pub place: u32,
    pub parts: &'a [Part],
    pub value: &'a Typed,
    pub later: bool,
}

impl Left<'_> {
    /// An assignment: its value, what its place assigns, its indexes, and then the store.
    #[inline(never)]
    #[tactic(auto, using(crate::proofs::AssignSteps::steps), unfolding(crate::specs::Statement::set_made))]
    pub(crate) fn assign(
        &self,
        nodes: &mut Nodes,
        both: &mut Pair,
        set: &Assignment,
    ) -> Result<(), NoMemory>
        requires few { length self.now.signals.now < 2 ^ 32 }
        requires current { length both.old.current.now ≡ length self.now.signals.now }
        requires later { length both.old.later.now ≡ length self.now.signals.now }
        requires fits { IsTrue (assignment_fits self.now.signals.now set.now.parts.now set.now.value.now) }
        ensures ok { OnOk result (maps nodes.new both.new.current.now both.new.later.now
            ≡ set_made self.now.signals.now (maps nodes.old both.old.current.now both.old.later.now) set.now.place set.now.parts.now set.now.value.now set.now.later) }
        ensures current { length both.new.current.now ≡ length self.now.signals.now }
        ensures later { length both.new.later.now ≡ length self.now.signals.now }
        ensures base { both.new.current.base ≡ both.old.current.base }
        ensures base_later { both.new.later.base ≡ both.old.later.base }
    {
        let at = Scene {
            alloc: self.alloc,
            signals: self.signals,
            nodes_of: both.current.as_slice(),
        };
        let width = self.parts_width(set.parts);
        let value = expression(&at, nodes, set.value)?;
        let free = Operation::Free {
            place: set.place,
            computed: unsigned(value, set.value.width),
        };
        let free = push(nodes, width, free)?;
        let indexes = indexes(&at, nodes, set.parts)?;
        let sides = Sides {
            parts: set.parts,
            indexes: indexes.as_slice(),
        };
        let word = unsigned(free, width);
        if set.later {
            self.parts(nodes, &mut both.later, &sides, word)
        } else {
            self.parts(nodes, &mut both.current, &sides, word)
        }
    }
}
