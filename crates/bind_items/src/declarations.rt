//! Declarations (IEEE 1364-2005, 4.9, 6.1.1 and 6.2.1): the words of arrays, and values. That of a net is a continuous assignment,
//! and that of a register its value at the start.
ghost use Rattle.std.specs.Prelude.{◌≡◌, Ok, OnOk, IfOk, IfErr};
ghost use Rattle.v_syntax.specs.Tree.{tree_of, no_select};
ghost use Rattle.v_syntax.specs.PartTree.{left_of, name_left};
ghost use Rattle.v_syntax.specs.ItemTree as tree;
ghost use Rattle.v_binding.specs.Assignments.{array_of, value_at, declarator_of};
ghost use Rattle.v_binding.specs.Seen.{names_in};
ghost use Rattle.bind_scopes.specs.Refuses.{Refuses};
ghost use Rattle.v_binding.specs.Homes.{home_of};

use crate::starts::start_at;
use crate::{Assigning, Scene, continuous};
use bind_clocks::Bound;
use bind_scopes::{addresses_at, counted};
use loc_base::NoMemory;
use std::alloc::Global;
use v_binding::{BindErr, Names};
use v_syntax::{Declarator, Expr, Identifier, Left, NetKind};

/// The words of an array, where a declaration has a range of addresses.
fn array_of(names: &Names<'_>, d: &Declarator, bound: &mut Bound) -> Result<(), BindErr>
    ensures ok { OnOk result (array_of (names_in names.now) (tree.declarator_of d.now) bound.old ≡ Ok bound.new) }
    ensures err { IfErr result (λ e. Refuses (array_of (names_in names.now) (tree.declarator_of d.now) bound.old) e) }
{
    if let Some(range) = &d.range {
        let addresses = addresses_at(names, d.site.span, range)?;
        let words = counted(d.site.span, bound.words(), addresses)?;
        bound.set_words(words);
    }
    Ok(())
}

/// A name as a left side.
#[tactic(auto, using(bind_scopes::proofs::LeftSteps::left_steps))]
fn whole_left(alloc: Global, name: &Identifier) -> Result<Left, NoMemory>
    ensures { IfOk result (λ l. left_of l ≡ name_left name.now.site name.now.name no_select) }
{
    Ok(Left::Name {
        site: name.site,
        name: name.name.copied(alloc)?,
        selects: Vec::new(alloc),
    })
}

/// A declaration with its value.
#[derive(Clone, Copy)]
struct Valued<'a> {
    kind: NetKind,
    declarator: &'a Declarator,
    value: &'a Expr,
}

/// The value of a declaration.
fn value_at(
    scene: Scene<'_>,
    names: &Names<'_>,
    valued: Valued<'_>,
    bound: &mut Bound,
) -> Result<(), BindErr>
    ensures ok { OnOk result (value_at scene.entry.frame.now (home_of scene.entry.home) (names_in names.now) valued.entry.kind (tree.declarator_of valued.entry.declarator.now) (tree_of valued.entry.value.now) bound.old ≡ Ok bound.new) }
    ensures err { IfErr result (λ e. Refuses (value_at scene.entry.frame.now (home_of scene.entry.home) (names_in names.now) valued.entry.kind (tree.declarator_of valued.entry.declarator.now) (tree_of valued.entry.value.now) bound.old) e) }
{
    let d = valued.declarator;
    match valued.kind {
        NetKind::Wire => {
            let left = whole_left(names.allocator(), &d.name)?;
            let assigning = Assigning {
                site: d.site,
                left: &left,
                value: valued.value,
            };
            continuous(scene, names, assigning, bound)
        }
        NetKind::Reg => start_at(names, &d.name.name, valued.value, bound),
    }
}

/// A name of a declaration.
#[derive(Clone, Copy)]
pub(crate) struct Declared<'a> {
    pub kind: NetKind,
    pub declarator: &'a Declarator,
}

/// A name of a declaration: its addresses first, then its value.
pub(crate) fn declarator(
    scene: Scene<'_>,
    names: &Names<'_>,
    declared: Declared<'_>,
    bound: &mut Bound,
) -> Result<(), BindErr>
    ensures ok { OnOk result (declarator_of scene.entry.frame.now (home_of scene.entry.home) (names_in names.now) declared.entry.kind (tree.declarator_of declared.entry.declarator.now) bound.old ≡ Ok bound.new) }
    ensures err { IfErr result (λ e. Refuses (declarator_of scene.entry.frame.now (home_of scene.entry.home) (names_in names.now) declared.entry.kind (tree.declarator_of declared.entry.declarator.now) bound.old) e) }
{
    let Declared { kind, declarator } = declared;
    array_of(names, declarator, bound)?;
    match &declarator.value {
        None => Ok(()),
        Some(value) => {
            let valued = Valued {
                kind,
                declarator,
                value,
            };
            value_at(scene, names, valued, bound)
        }
    }
}
