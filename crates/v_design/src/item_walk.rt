//! What the items of a scope make, in the order of the text (IEEE 1364-2005, 12.1 to 12.4), each with what it adds to the design.
ghost use Rattle.std.specs.Prelude.{◌≡◌, map, drop, Ok, OnOk, IfErr};
ghost use Rattle.loc_base.specs.Bits.{width_of};
ghost use Rattle.v_hierarchy.specs.Views.{child_of, copied_of, copies_of, block_of};
ghost use Rattle.v_binding.specs.Names.{turned};
ghost use Rattle.v_binding.specs.Items.{scope_next, ports_next, bound_copies, bound_block};
ghost use Rattle.v_binding.specs.Seen.{names_in};
ghost use Rattle.v_binding.specs.Homes as homes;
ghost use Rattle.bind_scopes.specs.Refuses.{Refuses};
ghost use Rattle.bind_scopes.specs.Views.{scope_of, scopes_of, socket_of};
ghost use Rattle.v_binding.specs.Standing.{BlockStands, CopiesStand, CopiedStands};
ghost use Rattle.bind_items.specs.Grounds.{ground_of};
ghost use Rattle.v_design.specs.Copies.{met_of, joined_at, copy_at, scopes_behind};

use crate::children::Children;
use crate::own::{enter, leave, nameless};
use bind_clocks::Bound;
use bind_items::{Ground, Joined, Scene, child, written_item};
use bind_scopes::Scope;
use bind_statements::{Always, always_block};
use loc_base::{Items, NoMemory};
use v_binding::{BindErr, Known, Names, Use};
use v_hierarchy::{Block, Child, Copied};
use v_sizes::Const;
use v_syntax::Identifier;

/// The names that are seen, the ports of the children with how many of them had their turn, and what is bound so far.
pub(crate) struct Walk<'t, 'a> {
    pub names: Names<'t>,
    pub children: Children<'t, 'a>,
    pub turn: usize,
    pub bound: Bound,
}

// A `drop` is written out, so that it is proved once, here.
impl<'t, 'a> Drop for Walk<'t, 'a> {
    fn drop(self) {
        let Walk {
            names: _,
            children: _,
            turn: _,
            bound: _,
        } = self;
    }
}

impl<'t, 'a> Walk<'t, 'a> {
    /// What is bound so far.
    pub fn into_bound(self) -> Bound
        ensures { result ≡ self.entry.bound }
    {
        let Walk {
            names: _,
            children: _,
            turn: _,
            bound,
        } = self;
        bound
    }
}

/// A module instance with the ports that it takes.
fn joined(scene: Scene<'_>, walk: &mut Walk<'_, '_>, own: Joined<'_, '_>) -> Result<(), BindErr>
    ensures ok { OnOk result (joined_at scene.entry.frame.now (homes.home_of scene.entry.home) (names_in walk.old.names) (map socket_of own.entry.ports.now) (child_of own.entry.child.now) (met_of walk.old) ≡ Ok (met_of walk.new)) }
    ensures err { IfErr result (λ e. Refuses (joined_at scene.entry.frame.now (homes.home_of scene.entry.home) (names_in walk.old.names) (map socket_of own.entry.ports.now) (child_of own.entry.child.now) (met_of walk.old)) e) }
    ensures same { OnOk result (names_in walk.new.names ≡ names_in walk.old.names) }
{
    child(scene, &walk.names, own, &mut walk.bound)?;
    walk.turn = walk.children.after(walk.turn);
    Ok(())
}

/// A module instance, which takes the next ports.
fn next_child(scene: Scene<'_>, walk: &mut Walk<'_, '_>, own: &Child<'_>) -> Result<(), BindErr>
    ensures ok { OnOk result (joined_at scene.entry.frame.now (homes.home_of scene.entry.home) (names_in walk.old.names) (ports_next (met_of walk.old).children) (child_of own.now) (met_of walk.old) ≡ Ok (met_of walk.new)) }
    ensures err { IfErr result (λ e. Refuses (joined_at scene.entry.frame.now (homes.home_of scene.entry.home) (names_in walk.old.names) (ports_next (met_of walk.old).children) (child_of own.now) (met_of walk.old)) e) }
    ensures same { OnOk result (names_in walk.new.names ≡ names_in walk.old.names) }
{
    match walk.children.ports_at(walk.turn) {
        Some(ports) => joined(scene, walk, Joined { child: own, ports }),
        None => {
            let none = Items::new(walk.names.allocator());
            let ports = none.as_slice();
            joined(scene, walk, Joined { child: own, ports })
        }
    }
}

/// Lets the variable of a generate loop have its value at a turn.
fn at_turn<'t>(
    names: &mut Names<'t>,
    variable: &'t Identifier,
    value: Const,
) -> Result<(), NoMemory>
    requires { width_of value.bits ≡ 32 }
    ensures { OnOk result (names_in names.new ≡ turned variable.now value (names_in names.old)) }
{
    let known = Known::new(&variable.name, Use::AtTurn(value));
    names.push(known)
}

/// The scopes that stand in a scope, and how many of them had their turn.
#[derive(Clone, Copy)]
struct Inside<'t, 'a> {
    scopes: &'a [Scope<'t>],
    met: usize,
}

/// What one item makes, where a scope that stands there has the next names.
#[cycle(walk)]
#[tactic(auto, using(bind_scopes::proofs::CopiedViews::copied_views))]
fn copied<'t>(
    copied: &Copied<'t>,
    ground: Ground<'_>,
    walk: &mut Walk<'t, '_>,
    inside: Inside<'t, '_>,
) -> Result<(), BindErr>
    requires { CopiedStands (copied_of copied.now) }
    ensures ok { OnOk result (copy_at (ground_of ground.entry) (names_in walk.old.names) (scope_next (scopes_of (drop inside.entry.met inside.entry.scopes.now))) (copied_of copied.now) (met_of walk.old) ≡ Ok (met_of walk.new)) }
    ensures err { IfErr result (λ e. Refuses (copy_at (ground_of ground.entry) (names_in walk.old.names) (scope_next (scopes_of (drop inside.entry.met inside.entry.scopes.now))) (copied_of copied.now) (met_of walk.old)) e) }
    ensures same { OnOk result (names_in walk.new.names ≡ names_in walk.old.names) }
{
    match copied {
        Copied::Written(item) => written_item(ground, &walk.names, item, &mut walk.bound),
        Copied::Always {
            site,
            sensitivity,
            body,
        } => {
            let always = Always {
                home: ground.home(*site),
                site: *site,
                sensitivity,
                body,
            };
            always_block(&mut walk.bound, ground.frame, &mut walk.names, always)
        }
        Copied::Child { site, child } => next_child(ground.scene(*site), walk, child),
        Copied::Inner(block) => inner(block, ground, walk, inside),
        Copied::Turn {
            variable,
            value,
            block,
        } => {
            at_turn(&mut walk.names, variable, *value)?;
            inner(block, ground, walk, inside)?;
            walk.names.pop();
            Ok(())
        }
    }
}

/// A scope inside, which has the next names.
#[cycle(walk)]
#[tactic(auto, using(crate::proofs::ItemWalkLaws::scope_laws))]
fn inner<'t>(
    block: &Block<'t>,
    ground: Ground<'_>,
    walk: &mut Walk<'t, '_>,
    inside: Inside<'t, '_>,
) -> Result<(), BindErr>
    requires { BlockStands (block_of block.now) }
    ensures ok { OnOk result (bound_block (ground_of ground.entry) (names_in walk.old.names) (scope_next (scopes_of (drop inside.entry.met inside.entry.scopes.now))) (block_of block.now) (met_of walk.old) ≡ Ok (met_of walk.new)) }
    ensures err { IfErr result (λ e. Refuses (bound_block (ground_of ground.entry) (names_in walk.old.names) (scope_next (scopes_of (drop inside.entry.met inside.entry.scopes.now))) (block_of block.now) (met_of walk.old)) e) }
    ensures same { OnOk result (names_in walk.new.names ≡ names_in walk.old.names) }
{
    if inside.met < inside.scopes.len() {
        entered(block, ground, walk, &inside.scopes[inside.met])
    } else {
        let none = nameless(walk.names.allocator());
        entered(block, ground, walk, &none)
    }
}

/// A scope that is entered: its names hide those around it.
#[cycle(walk)]
#[tactic(auto, using(bind_scopes::proofs::CopiedViews::copied_views, crate::proofs::ItemWalkLaws::entered, crate::proofs::ScopeViews::scope_views))]
fn entered<'t>(
    block: &Block<'t>,
    ground: Ground<'_>,
    walk: &mut Walk<'t, '_>,
    own: &Scope<'t>,
) -> Result<(), BindErr>
    requires { BlockStands (block_of block.now) }
    ensures ok { OnOk result (bound_block (ground_of ground.entry) (names_in walk.old.names) (scope_of own.now) (block_of block.now) (met_of walk.old) ≡ Ok (met_of walk.new)) }
    ensures err { IfErr result (λ e. Refuses (bound_block (ground_of ground.entry) (names_in walk.old.names) (scope_of own.now) (block_of block.now) (met_of walk.old)) e) }
    ensures same { OnOk result (names_in walk.new.names ≡ names_in walk.old.names) }
{
    let within = Ground {
        frame: ground.frame,
        module: ground.module,
        path: &block.path,
    };
    enter(&mut walk.names, own.names.as_slice())?;
    copies(block.copies.as_slice(), within, walk, own.inside.as_slice())?;
    leave(&mut walk.names, own.names.len());
    Ok(())
}

/// How many of the scopes inside had their turn behind what an item makes, where so many had it before.
#[tactic(auto, using(bind_scopes::proofs::CopiedViews::copied_views, crate::proofs::ItemWalkLaws::scopes_met))]
fn scopes_met(copied: &Copied<'_>, scopes: &[Scope<'_>], before: usize) -> usize
    ensures { scopes_of (drop result scopes.now) ≡ scopes_behind (copied_of copied.now) (scopes_of (drop before scopes.now)) }
{
    match copied {
        Copied::Inner(_) | Copied::Turn { .. } => {
            if before < scopes.len() {
                before + 1
            } else {
                before
            }
        }
        Copied::Written(_) | Copied::Always { .. } | Copied::Child { .. } => before,
    }
}

/// What the items of a scope make, one after another.
#[cycle(walk)]
#[tactic(auto, using(crate::proofs::ItemWalkLaws::copies_laws))]
pub(crate) fn copies<'t>(
    copies: &[Copied<'t>],
    ground: Ground<'_>,
    walk: &mut Walk<'t, '_>,
    scopes: &[Scope<'t>],
) -> Result<(), BindErr>
    requires { CopiesStand (copies_of (map copied_of copies.now)) }
    ensures ok { OnOk result (bound_copies (ground_of ground.entry) (names_in walk.old.names) (scopes_of scopes.now) (copies_of (map copied_of copies.now)) (met_of walk.old) ≡ Ok (met_of walk.new)) }
    ensures err { IfErr result (λ e. Refuses (bound_copies (ground_of ground.entry) (names_in walk.old.names) (scopes_of scopes.now) (copies_of (map copied_of copies.now)) (met_of walk.old)) e) }
    ensures same { OnOk result (names_in walk.new.names ≡ names_in walk.old.names) }
{
    let mut next = 0;
    for one in copies {
        copied(one, ground, walk, Inside { scopes, met: next })?;
        next = scopes_met(one, scopes, next);
    }
    Ok(())
}
