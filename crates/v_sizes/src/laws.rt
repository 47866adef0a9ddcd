//! Laws of the definitions. Each is the contract of a function that does nothing, over values that no code holds.
ghost use Rattle.std.specs.Prelude.{◌≡◌, true, Ok, None};
ghost use Rattle.v_syntax.specs.Literals.{judge};
ghost use Rattle.v_sizes.specs.Refusals.{literal_fault};
ghost use Rattle.design_core.specs.Constant.{zeros};
ghost use Rattle.design_core.specs.Valuation.{Valuation};
ghost use Rattle.design_core.specs.Value.{value};
ghost use Rattle.v_sizes.specs.Laws.{InContext, IsSized, Numeral, Stands};
ghost use Rattle.v_sizes.specs.Sizing.{sizing};
ghost use Rattle.v_sizes.specs.Sized.{typed};

/// The value of the sized expression is the value of the expression in whole numbers, at its context's width and sign
/// (IEEE 1364-2005, 5.4 and 5.5), where the expression isn't refused and its names are of the design.
pub fn same_value()
    ghost of: { InContext }
    requires { Stands of.signals of.look of.e of.width of.signed }
    ensures { (V : Valuation) → value of.signals V (typed of.look of.e of.width of.signed) ≡ (sizing of.look of.e).value V of.width of.signed }
{}

/// Such a sized expression is of its context's width and sign, and all its parts fit.
pub fn sized_fits()
    ghost of: { InContext }
    requires { Stands of.signals of.look of.e of.width of.signed }
    ensures { IsSized of.signals of.look of.e of.width of.signed }
{}

/// A constant has one value, whatever the signals' bits are.
pub fn constant_is_steady()
    ghost of: { InContext }
    requires { (sizing of.look of.e).constant ≡ true }
    ensures { (V : Valuation) → (sizing of.look of.e).value V of.width of.signed ≡ (sizing of.look of.e).value zeros of.width of.signed }
{}

/// A number that a token of a text can have is of 1 to 128 bits, so it isn't refused (IEEE 1364-2005, 3.5.1).
pub fn token_has_width()
    ghost of: { Numeral }
    requires { judge of.text ≡ Ok of.kind }
    ensures { literal_fault of.span of.text ≡ None }
{}
