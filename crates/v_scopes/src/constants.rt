//! Constants where a range, a parameter, a condition or the head of a loop wants one (IEEE 1364-2005, clause 5).
ghost use Rattle.std.specs.Prelude.{◌≡◌, ◌≤◌, Ok, IfOk, IfErr};
ghost use Rattle.v_syntax.specs.Tree.{tree_of};
ghost use Rattle.v_sizes.specs.Scopes.{look_of};
ghost use Rattle.v_hierarchy.specs.Constants.{fault_of, constant_at};
ghost use Rattle.v_hierarchy.specs.Frames.{Refuses};

use std::alloc::Global;
use v_hierarchy::ElabErr;
use v_sizes::{Const, Scope, WidthErr};
use v_syntax::Expr;
use v_widths::constant_in;

/// A refusal of an expression, as one of a text.
fn fault_of(fault: WidthErr) -> ElabErr
    ensures { result ≡ fault_of fault }
{
    match fault {
        WidthErr::UnknownName(span) => ElabErr::UnknownName(span),
        WidthErr::NotConstant(span) => ElabErr::NotConstant(span),
        WidthErr::ZeroDivisor(span) => ElabErr::ZeroDivisor(span),
        WidthErr::Range(span) => ElabErr::Range(span),
        WidthErr::NoMemory => ElabErr::NoMemory,
    }
}

/// The constant that an expression is in an assignment of a width, 0 for none.
pub fn constant_at(
    alloc: Global,
    scope: &Scope<'_>,
    context: u8,
    e: &Expr,
) -> Result<Const, ElabErr>
    requires { context ≤ 128 }
    ensures ok { IfOk result (λ c. constant_at (look_of scope.now) context (tree_of e.now) ≡ Ok c) }
    ensures err { IfErr result (λ fault. Refuses (constant_at (look_of scope.now) context (tree_of e.now)) fault) }
{
    match constant_in(alloc, e, scope, context) {
        Ok(value) => Ok(value),
        Err(fault) => Err(fault_of(fault)),
    }
}
