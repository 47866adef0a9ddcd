//! What is met of a scope so far.
ghost use Rattle.std.specs.Prelude.{◌≡◌, IfErr, OnOk};
ghost use Rattle.v_syntax.specs.ItemTree.{item_of};
ghost use Rattle.v_hierarchy.specs.declared.error.ElabErr.TheVariants.{NoMemory as OutOfMemory};
ghost use Rattle.v_hierarchy.specs.Items.{with_copy, written};
ghost use Rattle.v_hierarchy.specs.Views.{copied_of};
ghost use Rattle.v_elaborate.specs.Met.{met_of, outer_at};

use loc_base::{Items, NoMemory};
use v_hierarchy::{Copied, ElabErr};
use v_loops::Position;
use v_syntax::Item;

/// What is met of a scope: its names, which stand innermost in the scopes of its position, and what its items made.
#[derive(Drop)]
pub(crate) struct Met<'t> {
    pub(crate) position: Position<'t>,
    pub(crate) copies: Items<Copied<'t>>,
}

impl<'t> Met<'t> {
    /// One more of what items make, at the end.
    #[tactic(auto, using(crate::proofs::CopiedViews::push_steps))]
    pub(crate) fn keep(&mut self, copied: Copied<'t>) -> Result<(), NoMemory>
        ensures ok { OnOk result (met_of self.new ≡ with_copy (met_of self.old) (copied_of copied.entry)) }
        ensures around { outer_at self.new ≡ outer_at self.old }
    {
        self.copies.push(copied)
    }

    /// An item as it is written.
    #[tactic(auto, using(crate::proofs::CopiedViews::copied_steps))]
    pub(crate) fn written(&mut self, item: &'t Item) -> Result<(), ElabErr>
        ensures ok { OnOk result (met_of self.new ≡ with_copy (met_of self.old) (written (item_of item.now))) }
        ensures err { IfErr result (λ fault. fault ≡ OutOfMemory) }
        ensures around { outer_at self.new ≡ outer_at self.old }
    {
        self.keep(Copied::Written(item))?;
        Ok(())
    }
}
