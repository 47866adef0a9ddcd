//! Procedural assignments (IEEE 1364-2005, 9.2).
ghost use Rattle.std.specs.Prelude.{◌≡◌, length, Ok, IfOk, IfErr, OnOk, OnErr};
ghost use Rattle.v_syntax.specs.Tree.{tree_of};
ghost use Rattle.v_syntax.specs.PartTree.{left_of};
ghost use Rattle.v_syntax.specs.StatementTree.{statement_of};
ghost use Rattle.v_binding.specs.Places.{placed};
ghost use Rattle.v_binding.specs.Statements.{is_later, set, set_of};
ghost use Rattle.bind_scopes.specs.Refuses.{Refuses};
ghost use Rattle.v_binding.specs.Seen.{names_in};
ghost use Rattle.v_binding.specs.Homes.{home_of};

use bind_scopes::{assigned, target};
use design_core::{Place, PlaceKind, Stmt, Target};
use loc_base::{Items, NoMemory};
use std::mem;
use v_binding::{BindErr, Home, Names, Start};
use v_syntax::{AssignKind, Expr, Left, Site, Statement};

/// Whether what is assigned is stored later.
fn is_later(kind: AssignKind) -> bool
    ensures { result ≡ is_later kind }
{
    match kind {
        AssignKind::Blocking => false,
        AssignKind::Nonblocking => true,
    }
}

/// The number of the next place. More than 4,294,967,295 places find no memory.
fn next_place(places: &Items<Place>) -> Result<u32, NoMemory>
    ensures { IfOk result (λ n. n ≡ length places.now) }
{
    match u32::try_from(places.len()) {
        Ok(number) => Ok(number),
        Err(_) => Err(NoMemory),
    }
}

/// An assignment as it is written.
#[derive(Clone, Copy)]
struct Assignment<'s> {
    site: Site,
    left: &'s Left,
    kind: AssignKind,
    value: &'s Expr,
}

/// An assignment, and its place behind those before it.
fn set(
    home: Home<'_>,
    names: &Names<'_>,
    written: Assignment<'_>,
    places: &mut Items<Place>,
) -> Result<Stmt, BindErr>
    ensures ok { IfOk result (λ s. set (home_of home.entry) (names_in names.now) written.entry.site (left_of written.entry.left.now) written.entry.kind (tree_of written.entry.value.now) places.old ≡ Ok (placed s places.new)) }
    ensures err { IfErr result (λ fault. Refuses (set (home_of home.entry) (names_in names.now) written.entry.site (left_of written.entry.left.now) written.entry.kind (tree_of written.entry.value.now) places.old) fault) }
{
    let mut left = target(names, written.left)?;
    let value = assigned(names, written.value, left.width)?;
    let number = next_place(places)?;
    let start = Start {
        kind: PlaceKind::Step,
        site: written.site,
        copy: 0,
    };
    let place = home.place(names.allocator(), start, &left)?;
    places.push(place)?;
    Ok(Stmt::Set {
        place: number,
        target: Target {
            parts: mem::replace(&mut left.parts, Items::new(names.allocator())),
        },
        value,
        later: is_later(written.kind),
    })
}

/// A statement that stands as it is written: an assignment, with its place behind those before it.
#[tactic(auto, using(bind_scopes::proofs::StatementViews::statement_views))]
pub(crate) fn still(
    home: Home<'_>,
    names: &Names<'_>,
    statement: &Statement,
    places: &mut Items<Place>,
) -> Result<Stmt, BindErr>
    ensures ok { IfOk result (λ s. set_of (home_of home.entry) (names_in names.now) (statement_of statement.now) places.old ≡ Ok (placed s places.new)) }
    ensures err { IfErr result (λ fault. Refuses (set_of (home_of home.entry) (names_in names.now) (statement_of statement.now) places.old) fault) }
{
    match statement {
        Statement::Assign {
            site,
            target,
            kind,
            delay: _,
            value,
        } => {
            let written = Assignment {
                site: *site,
                left: target,
                kind: *kind,
                value,
            };
            set(home, names, written, places)
        }
        Statement::Empty { .. }
        | Statement::Block { .. }
        | Statement::Delayed { .. }
        | Statement::If { .. }
        | Statement::Case { .. }
        | Statement::For { .. } => Ok(Stmt::Nothing),
    }
}
