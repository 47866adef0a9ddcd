//! Each law is the contract of a function that does nothing.
ghost use Rattle.std.specs.Prelude.{◌≡◌, ◌≤◌, List, None, true, false};
ghost use Rattle.loc_base.specs.Bits.{value_of};
ghost use Rattle.v_syntax.specs.Tree.{tree_of};
ghost use Rattle.design_core.specs.declared.signal.Signal.{Signal};
ghost use Rattle.design_core.specs.Valuation.{Valuation};
ghost use Rattle.design_core.specs.Value.{value};
ghost use Rattle.design_core.specs.WellFormed.{typed_fits};
ghost use Rattle.v_sizes.specs.Scopes.{look_of};
ghost use Rattle.v_sizes.specs.Sizing.{sizing};
ghost use Rattle.v_sizes.specs.Context.{IsScopeOf, context_width, context_sign, typed_in, refusal_in, constant_of, constant_refusal_in};
ghost use Rattle.width_laws.specs.Meaning.{meaning_in};

use design_core::Typed;
use v_syntax::Expr;
use v_widths::{Const, Scope};

/// What `typed` answers, in the words of its clauses `ok` and `accepted`: where the names stand for signals of a design, its value is that of
/// the expression in whole numbers, at the width and the sign that the context gives it, whatever bits the signals have; and it fits the
/// design (IEEE 1364-2005, 5.4 and 5.5).
pub fn typed_has_value(e: &Expr, scope: &Scope<'_>, context: u8, unsigned: bool, answer: &Typed)
    requires most { context ≤ 128 }
    requires ok { answer.now ≡ typed_in (look_of scope.now) (tree_of e.now) context unsigned }
    requires accepted { refusal_in (look_of scope.now) (tree_of e.now) context unsigned ≡ None }
    ensures width { answer.now.width ≡ context_width (look_of scope.now) (tree_of e.now) context }
    ensures sign { answer.now.signed ≡ context_sign (look_of scope.now) (tree_of e.now) unsigned }
    ensures value { (signals : List Signal) → IsScopeOf signals (look_of scope.now) → (V : Valuation)
        → value signals V answer.now ≡ meaning_in (look_of scope.now) (tree_of e.now) context unsigned V }
    ensures fits { (signals : List Signal) → IsScopeOf signals (look_of scope.now) → typed_fits signals answer.now ≡ true }
{}

/// What `constant_in` answers, in the words of its clauses `ok` and `accepted`: the expression reads no signal, and where the names stand for
/// signals of a design, the constant has its value in whole numbers, whatever bits the signals have.
pub fn constant_has_value(e: &Expr, scope: &Scope<'_>, context: u8, answer: &Const)
    requires most { context ≤ 128 }
    requires ok { answer.now ≡ constant_of (look_of scope.now) (tree_of e.now) context }
    requires accepted { constant_refusal_in (look_of scope.now) (tree_of e.now) context ≡ None }
    ensures no_signal { (sizing (look_of scope.now) (tree_of e.now)).constant ≡ true }
    ensures value { (signals : List Signal) → IsScopeOf signals (look_of scope.now) → (V : Valuation)
        → value_of answer.now.bits ≡ meaning_in (look_of scope.now) (tree_of e.now) context false V }
{}
