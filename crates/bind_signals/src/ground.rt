//! A scope where names get their numbers (IEEE 1364-2005, 12.5 and 12.7).
ghost use Rattle.std.specs.Prelude.{◌≡◌, map, option_map, IfOk};
ghost use Rattle.v_hierarchy.specs.Frames.{names_of};
ghost use Rattle.v_hierarchy.specs.Views.{entry_of, block_of};
ghost use Rattle.v_binding.specs.Standing.{BlockStands};
ghost use Rattle.bind_signals.specs.Firsts.{firsts};

use crate::declared::first_of_each;
use crate::looped::Looped;
use crate::ported::Ported;
use loc_base::{Name, NoMemory};
use std::alloc::Global;
use v_hierarchy::{Block, Frame, Port};

/// A scope: the path of its signals, its ports, what it declares and which of its integers loops use.
pub(crate) struct Ground<'a, 't> {
    /// Nothing in the top's own scope.
    pub(crate) prefix: Option<&'a Name>,
    pub(crate) ported: Ported<'a, 't>,
    pub(crate) frame: Frame<'t>,
    pub(crate) looped: Looped<'a, 't>,
}

// A `drop` is written out, so that it is proved once, here.
impl<'a, 't> Drop for Ground<'a, 't> {
    fn drop(self) {
        let Ground {
            prefix: _,
            ported: _,
            frame: _,
            looped: _,
        } = self;
    }
}

/// The scope of a block with these ports.
#[tactic(auto, using(bind_scopes::proofs::CopiedViews::copied_views))]
pub(crate) fn ground_of<'a, 't>(
    alloc: Global,
    prefix: Option<&'a Name>,
    ports: &'a [Port<'t>],
    block: &'a Block<'t>,
) -> Result<Ground<'a, 't>, NoMemory>
    requires { BlockStands (block_of block.now) }
    ensures prefix { IfOk result (λ g. option_map (λ p. p.now) g.prefix ≡ option_map (λ p. p.now) prefix.entry) }
    ensures ports { IfOk result (λ g. g.ported.ports.now ≡ ports.now) }
    ensures entries { IfOk result (λ g. names_of g.frame ≡ firsts (map entry_of block.now.names)) }
    ensures copies { IfOk result (λ g. g.looped.copies.now ≡ block.now.copies) }
{
    let ported = Ported::new(alloc, ports)?;
    let frame = first_of_each(alloc, block.names.as_slice())?;
    let looped = Looped::new(alloc, block.copies.as_slice())?;
    Ok(Ground {
        prefix,
        ported,
        frame,
        looped,
    })
}
