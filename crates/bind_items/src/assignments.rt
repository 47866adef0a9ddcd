//! Continuous assignments (IEEE 1364-2005, 6.1).
ghost use Rattle.std.specs.Prelude.{◌≡◌, Ok, OnOk, IfErr};
ghost use Rattle.v_syntax.specs.Tree.{tree_of};
ghost use Rattle.v_syntax.specs.PartTree.{left_of};
ghost use Rattle.v_syntax.specs.ItemTree as tree;
ghost use Rattle.v_binding.specs.Assignments.{continuous, assignment_of};
ghost use Rattle.v_binding.specs.Seen.{names_in};
ghost use Rattle.bind_scopes.specs.Refuses.{Refuses};
ghost use Rattle.v_binding.specs.Homes.{home_of};

use crate::scene::Scene;
use bind_clocks::{Bound, Made};
use bind_scopes::{assigned, target};
use design_core::PlaceKind;
use v_binding::{BindErr, Names, Start};
use v_syntax::{Expr, Left, NetAssignment, Site};

/// A continuous assignment: where it begins, its left side and its right side.
#[derive(Clone, Copy)]
pub struct Assigning<'a> {
    pub site: Site,
    pub left: &'a Left,
    pub value: &'a Expr,
}

/// A continuous assignment: the left side first.
pub fn continuous(
    scene: Scene<'_>,
    names: &Names<'_>,
    assigning: Assigning<'_>,
    bound: &mut Bound,
) -> Result<(), BindErr>
    ensures ok { OnOk result (continuous scene.entry.frame.now (home_of scene.entry.home) (names_in names.now) assigning.entry.site (left_of assigning.entry.left.now) (tree_of assigning.entry.value.now) bound.old ≡ Ok bound.new) }
    ensures err { IfErr result (λ e. Refuses (continuous scene.entry.frame.now (home_of scene.entry.home) (names_in names.now) assigning.entry.site (left_of assigning.entry.left.now) (tree_of assigning.entry.value.now) bound.old) e) }
{
    let left = target(names, assigning.left)?;
    let value = assigned(names, assigning.value, left.width)?;
    let made = Made {
        start: Start {
            kind: PlaceKind::Assign,
            site: assigning.site,
            copy: 0,
        },
        span: assigning.site.span,
        left,
        value,
    };
    bound.driven_at(scene.frame, scene.home, made)?;
    Ok(())
}

/// The same, as it is written.
pub fn assignment(
    scene: Scene<'_>,
    names: &Names<'_>,
    written: &NetAssignment,
    bound: &mut Bound,
) -> Result<(), BindErr>
    ensures ok { OnOk result (assignment_of scene.entry.frame.now (home_of scene.entry.home) (names_in names.now) (tree.assignment_of written.now) bound.old ≡ Ok bound.new) }
    ensures err { IfErr result (λ e. Refuses (assignment_of scene.entry.frame.now (home_of scene.entry.home) (names_in names.now) (tree.assignment_of written.now) bound.old) e) }
{
    let assigning = Assigning {
        site: written.site,
        left: &written.target,
        value: &written.value,
    };
    continuous(scene, names, assigning, bound)
}
