//! An expression of the text in a context: sized, as a constant, or refused.
ghost use Rattle.std.specs.Prelude.{◌≡◌, ◌≤◌, ◌⊎◌, ◌&&◌, not, max, map, true, false, Some, None, IfOk, IfErr, OnOk};
ghost use Rattle.v_syntax.specs.Tree.{tree_of, selection_of, selections_of};
ghost use Rattle.v_syntax.specs.Tree as written;
ghost use Rattle.v_sizes.specs.declared.error.WidthErr.TheVariants.{NoMemory as OutOfMemory};
ghost use Rattle.v_sizes.specs.Scopes.{look_of};
ghost use Rattle.v_sizes.specs.Sizing.{sizing};
ghost use Rattle.v_sizes.specs.Context.{typed_in, refusal_in, constant_of, constant_refusal_in};
ghost use Rattle.v_widths.specs.Closing.{closed};
ghost use Rattle.v_widths.specs.Opening.{opened};

use crate::close::close;
use crate::measure::{measure, measure_name};
use crate::measured::Measured;
use design_core::Typed;
use loc_base::{Boxed, Name, NoMemory};
use std::alloc::Global;
use v_selects::node::word_in;
use v_selects::{At, Closed};
use v_sizes::{Const, Scope, WidthErr};
use v_syntax::{Expr, Select, Site};

/// What is asked of an expression: whether constants alone are wanted, the width of the context, and whether what stands beside
/// it makes it unsigned.
#[derive(Clone, Copy)]
struct Asked {
    only: bool,
    context: u8,
    unsigned: bool,
}

/// A measured expression in the context of a width, 0 for none.
fn in_context(
    alloc: Global,
    e: Boxed<Measured>,
    context: u8,
    unsigned: bool,
) -> Result<Closed, NoMemory>
    requires least { 1 ≤ e.width }
    requires most { e.width ≤ 128 }
    requires context { context ≤ 128 }
    ensures { IfOk result (λ c. c ≡ closed e (max e.width context) (e.signed && not unsigned)) }
{
    let size = e.width.max(context);
    let signed = e.signed && !unsigned;
    let closed = close(alloc, e, size, signed)?;
    Ok(closed.into_inner())
}

/// An expression in the context of a width, 0 for none.
fn answered(alloc: Global, e: &Expr, scope: &Scope<'_>, asked: Asked) -> Result<Closed, NoMemory>
    requires { asked.context ≤ 128 }
    ensures { IfOk result (λ c. c ≡ closed (opened (look_of scope.now) asked.only (tree_of e.now)) (max (opened (look_of scope.now) asked.only (tree_of e.now)).width asked.context) ((opened (look_of scope.now) asked.only (tree_of e.now)).signed && not asked.unsigned)) }
{
    let open = measure(alloc, e, scope, asked.only)?;
    in_context(alloc, open, asked.context, asked.unsigned)
}

/// The sized expression in the context of a width, 0 for none (IEEE 1364-2005, 5.4 and 5.5). The context is unsigned where
/// `unsigned` says so, as another expression of a case does. It is refused with the leftmost part that is wrong by itself.
#[tactic(auto, using(crate::proofs::Answered::typed_answers))]
pub fn typed(
    alloc: Global,
    e: &Expr,
    scope: &Scope<'_>,
    context: u8,
    unsigned: bool,
) -> Result<Typed, WidthErr>
    requires { context ≤ 128 }
    ensures ok { IfOk result (λ t. t ≡ typed_in (look_of scope.now) (tree_of e.now) context unsigned) }
    ensures accepted { OnOk result (refusal_in (look_of scope.now) (tree_of e.now) context unsigned ≡ None) }
    ensures refused { IfErr result (λ err. (err ≡ OutOfMemory) ⊎ (refusal_in (look_of scope.now) (tree_of e.now) context unsigned ≡ Some err)) }
{
    let asked = Asked {
        only: false,
        context,
        unsigned,
    };
    let Closed {
        typed,
        constant: _,
        fault,
    } = answered(alloc, e, scope, asked)?;
    match fault {
        Some(fault) => Err(fault),
        None => Ok(typed),
    }
}

/// The constant that an expression is in an assignment of a width, 0 for none, with its own sign; refused as an expression in
/// which constants alone may stand.
#[tactic(auto, using(crate::proofs::Answered::constant_answers))]
pub fn constant_in(
    alloc: Global,
    e: &Expr,
    scope: &Scope<'_>,
    context: u8,
) -> Result<Const, WidthErr>
    requires { context ≤ 128 }
    ensures ok { IfOk result (λ c. c ≡ constant_of (look_of scope.now) (tree_of e.now) context) }
    ensures accepted { OnOk result (constant_refusal_in (look_of scope.now) (tree_of e.now) context ≡ None) }
    ensures refused { IfErr result (λ err. (err ≡ OutOfMemory) ⊎ (constant_refusal_in (look_of scope.now) (tree_of e.now) context ≡ Some err)) }
{
    let asked = Asked {
        only: true,
        context,
        unsigned: false,
    };
    let Closed {
        typed,
        constant: _,
        fault,
    } = answered(alloc, e, scope, asked)?;
    match fault {
        Some(fault) => Err(fault),
        None => Ok(Const {
            bits: word_in(&typed),
            signed: typed.signed,
        }),
    }
}

/// The constant that an expression is by itself.
pub fn constant(alloc: Global, e: &Expr, scope: &Scope<'_>) -> Result<Const, WidthErr>
    ensures ok { IfOk result (λ c. c ≡ constant_of (look_of scope.now) (tree_of e.now) 0) }
    ensures accepted { OnOk result (constant_refusal_in (look_of scope.now) (tree_of e.now) 0 ≡ None) }
    ensures refused { IfErr result (λ err. (err ≡ OutOfMemory) ⊎ (constant_refusal_in (look_of scope.now) (tree_of e.now) 0 ≡ Some err)) }
{
    constant_in(alloc, e, scope, 0)
}

/// The sized expression that a name with its selects is by itself, as where no expression stands, but a name: on a left side, or in an
/// event list. Exactly `typed` of the expression that the name is, with no width of a context.
pub fn typed_name(
    alloc: Global,
    scope: &Scope<'_>,
    site: Site,
    name: &Name,
    selects: &[Select],
) -> Result<Typed, WidthErr>
    ensures ok { IfOk result (λ t. t ≡ typed_in (look_of scope.now) (written.name site name.now (selections_of (map selection_of selects.now))) 0 false) }
    ensures accepted { OnOk result (refusal_in (look_of scope.now) (written.name site name.now (selections_of (map selection_of selects.now))) 0 false ≡ None) }
    ensures refused { IfErr result (λ err. (err ≡ OutOfMemory) ⊎ (refusal_in (look_of scope.now) (written.name site name.now (selections_of (map selection_of selects.now))) 0 false ≡ Some err)) }
{
    let at = At {
        span: site.span,
        only: false,
    };
    let open = measure_name(alloc, at, name, selects, scope)?;
    let Closed {
        typed,
        constant: _,
        fault,
    } = in_context(alloc, open, 0, false)?;
    match fault {
        Some(fault) => Err(fault),
        None => Ok(typed),
    }
}

/// The width and the sign of an expression.
#[derive(Clone, Copy, Debug, PartialEq, Eq)]
pub struct Size {
    pub width: u8,
    pub signed: bool,
}

/// What an expression has by itself, also where it is refused (IEEE 1364-2005, 5.4.1 and 5.5.1).
pub fn own_size(alloc: Global, e: &Expr, scope: &Scope<'_>) -> Result<Size, NoMemory>
    ensures width { IfOk result (λ size. size.width ≡ (sizing (look_of scope.now) (tree_of e.now)).width) }
    ensures signed { IfOk result (λ size. size.signed ≡ (sizing (look_of scope.now) (tree_of e.now)).signed) }
{
    let open = measure(alloc, e, scope, false)?;
    Ok(Size {
        width: open.width,
        signed: open.signed,
    })
}
