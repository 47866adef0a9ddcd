//! Expressions and constants where they stand (IEEE 1364-2005, clause 5).
ghost use Rattle.std.specs.Prelude.{◌≡◌, ◌≤◌, map, Ok, IfOk, IfErr};
ghost use Rattle.v_syntax.specs.Tree.{tree_of, selection_of, selections_of};
ghost use Rattle.v_syntax.specs.Tree as written;
ghost use Rattle.v_sizes.specs.Sizing.{sizing};
ghost use Rattle.v_binding.specs.Names.{look_in};
ghost use Rattle.v_binding.specs.Expressions.{sized_in, assigned, by_itself, constant_at, index_at};
ghost use Rattle.bind_scopes.specs.Refuses.{Refuses};
ghost use Rattle.v_binding.specs.Seen.{names_in};

use crate::unknown::{fault_in, fault_of_name};
use design_core::Typed;
use loc_base::{Name, NoMemory};
use v_binding::{BindErr, Names};
use v_hierarchy::{index_of, site_of};
use v_sizes::Const;
use v_syntax::{Expr, Select, Site};
use v_widths::{Size, constant_in, typed, typed_name};

/// The sized expression in a context of a width, 0 for none; `unsigned` where what stands beside it makes it so.
pub fn sized_in(names: &Names<'_>, e: &Expr, context: u8, unsigned: bool) -> Result<Typed, BindErr>
    requires { context ≤ 128 }
    ensures ok { IfOk result (λ t. sized_in (names_in names.now) (tree_of e.now) context unsigned ≡ Ok t) }
    ensures err { IfErr result (λ fault. Refuses (sized_in (names_in names.now) (tree_of e.now) context unsigned) fault) }
{
    let alloc = names.allocator();
    match typed(alloc, e, names.scope(), context, unsigned) {
        Ok(typed) => Ok(typed),
        Err(wrong) => Err(fault_in(names, e, wrong)),
    }
}

/// The width and the sign that an expression has by itself, also where it is refused.
pub fn own_size(names: &Names<'_>, e: &Expr) -> Result<Size, NoMemory>
    ensures width { IfOk result (λ s. s.width ≡ (sizing (look_in (names_in names.now)) (tree_of e.now)).width) }
    ensures signed { IfOk result (λ s. s.signed ≡ (sizing (look_in (names_in names.now)) (tree_of e.now)).signed) }
    ensures least { IfOk result (λ s. 1 ≤ s.width) }
    ensures most { IfOk result (λ s. s.width ≤ 128) }
{
    let own = v_widths::own_size(names.allocator(), e, names.scope())?;
    Ok(own)
}

/// The right side of an assignment to so many bits.
pub fn assigned(names: &Names<'_>, e: &Expr, width: u8) -> Result<Typed, BindErr>
    requires { width ≤ 128 }
    ensures ok { IfOk result (λ t. assigned (names_in names.now) (tree_of e.now) width ≡ Ok t) }
    ensures err { IfErr result (λ fault. Refuses (assigned (names_in names.now) (tree_of e.now) width) fault) }
{
    sized_in(names, e, width, false)
}

/// An expression by itself.
pub fn by_itself(names: &Names<'_>, e: &Expr) -> Result<Typed, BindErr>
    ensures ok { IfOk result (λ t. by_itself (names_in names.now) (tree_of e.now) ≡ Ok t) }
    ensures err { IfErr result (λ fault. Refuses (by_itself (names_in names.now) (tree_of e.now)) fault) }
{
    sized_in(names, e, 0, false)
}

/// A name with its selects by itself, where no expression stands, but a name: on a left side, or in an event list.
pub fn named(
    names: &Names<'_>,
    site: Site,
    name: &Name,
    selects: &[Select],
) -> Result<Typed, BindErr>
    ensures ok { IfOk result (λ t. by_itself (names_in names.now) (written.name site name.now (selections_of (map selection_of selects.now))) ≡ Ok t) }
    ensures err { IfErr result (λ fault. Refuses (by_itself (names_in names.now) (written.name site name.now (selections_of (map selection_of selects.now)))) fault) }
    ensures most { IfOk result (λ t. t.width ≤ 128) }
{
    let alloc = names.allocator();
    match typed_name(alloc, names.scope(), site, name, selects) {
        Ok(typed) => Ok(typed),
        Err(wrong) => Err(fault_of_name(names, name, selects, wrong)),
    }
}

/// The constant in an assignment of a width, 0 for none.
pub fn constant_at(names: &Names<'_>, e: &Expr, width: u8) -> Result<Const, BindErr>
    requires { width ≤ 128 }
    ensures ok { IfOk result (λ c. constant_at (names_in names.now) (tree_of e.now) width ≡ Ok c) }
    ensures err { IfErr result (λ fault. Refuses (constant_at (names_in names.now) (tree_of e.now) width) fault) }
{
    let alloc = names.allocator();
    match constant_in(alloc, e, names.scope(), width) {
        Ok(value) => Ok(value),
        Err(wrong) => Err(fault_in(names, e, wrong)),
    }
}

/// A whole number of 32 bits.
pub fn index_at(names: &Names<'_>, e: &Expr) -> Result<i32, BindErr>
    ensures ok { IfOk result (λ n. index_at (names_in names.now) (tree_of e.now) ≡ Ok n) }
    ensures err { IfErr result (λ fault. Refuses (index_at (names_in names.now) (tree_of e.now)) fault) }
{
    let value = constant_at(names, e, 0)?;
    match index_of(value) {
        Some(index) => Ok(index),
        None => Err(BindErr::Range(site_of(e).span)),
    }
}
