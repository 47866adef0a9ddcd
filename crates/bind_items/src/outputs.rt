//! Outputs of gates (IEEE 1364-2005, 7.1): each is a left side, and a place.
ghost use Rattle.std.specs.Prelude.{◌≡◌, [], ◌∷◌, map, Ok, OnOk, IfOk, IfErr};
ghost use Rattle.v_syntax.specs.Tree.{tree_of};
ghost use Rattle.v_binding.specs.Steps.{each};
ghost use Rattle.v_binding.specs.Gates.{output_at, outputs_driven};
ghost use Rattle.v_binding.specs.Seen.{names_in};
ghost use Rattle.bind_scopes.specs.Refuses.{Refuses};
ghost use Rattle.v_binding.specs.Homes.{home_of};

use crate::scene::Scene;
use crate::{copied, for_width};
use bind_clocks::{Bound, Made};
use bind_scopes::output;
use design_core::{PlaceKind, Typed};
use loc_base::{Items, NoMemory, Span};
use std::alloc::Global;
use std::marker::Model;
use v_binding::{BindErr, Left, Names, Start};
use v_hierarchy::site_of;
use v_syntax::{Expr, Site};

/// An output of a gate: where it begins, and its left side. Contracts see it as the record of the definitions.
pub(crate) struct Output {
    site: Site,
    left: Left,
}

impl Model for Output {
    ghost use Rattle.v_binding.specs.Gates.{Output as Plain};
    ghost use Rattle.std.specs.Coded.{codes};
    ghost use Rattle.design_core.specs.contracts.expression.Node as node;

    ghost Value = { Plain };

    ghost coded = { Prim.hlevel (codes, node.the_row.coded) };

    ghost view = { λ o. record { site = o.site; left = o.left } };
}

// A `drop` is written out, so that it is proved once, here.
impl Drop for Output {
    fn drop(self) {
        let Output { site: _, left: _ } = self;
    }
}

/// The left sides of outputs, from the left.
pub(crate) fn outputs_at(names: &Names<'_>, terminals: &[Expr]) -> Result<Items<Output>, BindErr>
    ensures ok { IfOk result (λ outputs. each (output_at (names_in names.now)) (map tree_of terminals.now) [] ≡ Ok outputs) }
    ensures err { IfErr result (λ e. Refuses (each (output_at (names_in names.now)) (map tree_of terminals.now) []) e) }
{
    let mut outputs = Items::new(names.allocator());
    for e in terminals {
        let left = output(names, e)?;
        let site = site_of(e);
        outputs.push(Output { site, left })?;
    }
    Ok(outputs)
}

/// What drives the outputs of a gate: where the gate stands, its first place, and what it gives.
#[derive(Clone, Copy)]
pub(crate) struct Given<'a> {
    pub alloc: Global,
    pub span: Span,
    pub copy: u32,
    pub value: &'a Typed,
}

impl Output {
    /// Drives an output by what its gate gives.
    fn drive(self, scene: Scene<'_>, given: &Given<'_>, bound: &mut Bound) -> Result<(), NoMemory>
        ensures { OnOk result (outputs_driven scene.entry.frame.now (home_of scene.entry.home) given.now.span given.now.copy given.now.value.now (self ∷ []) bound.old ≡ bound.new) }
    {
        let Output { site, left } = self;
        let value = copied(given.alloc, given.value)?;
        let value = for_width(given.alloc, left.width, value)?;
        let made = Made {
            start: Start {
                kind: PlaceKind::Gate,
                site,
                copy: given.copy,
            },
            span: given.span,
            left,
            value,
        };
        bound.driven_at(scene.frame, scene.home, made)
    }
}

/// Drives outputs by what their gate gives, from the left.
#[tactic(auto, using(crate::proofs::OutputLaws::reversed_laws))]
pub(crate) fn drive(
    scene: Scene<'_>,
    given: &Given<'_>,
    outputs: Items<Output>,
    bound: &mut Bound,
) -> Result<(), NoMemory>
    ensures { OnOk result (outputs_driven scene.entry.frame.now (home_of scene.entry.home) given.now.span given.now.copy given.now.value.now outputs bound.old ≡ bound.new) }
{
    let mut rest = outputs.into_vec();
    rest.reverse();
    while let Some(output) = rest.pop() {
        output.drive(scene, given, bound)?;
    }
    Ok(())
}
