//! The types of parameters, and values of a type (IEEE 1364-2005, 4.10 and 12.2).
ghost use Rattle.std.specs.Prelude.{◌≡◌, ◌≤◌, Bool};
ghost use Rattle.loc_base.specs.Bits.{width_of};
ghost use Rattle.v_syntax.specs.ItemTree.{parameter_type_of};
ghost use Rattle.v_sizes.specs.Context.{IsMeaning};
ghost use Rattle.v_hierarchy.specs.Constants.{assigned, down_from, width};
ghost use Rattle.v_hierarchy.specs.Names.{constant, meaning_of};
ghost use Rattle.v_hierarchy.specs.Parameters.{is_written, context_of, valued};
ghost use Rattle.v_hierarchy.specs.Views.{standing_of};
ghost use Rattle.v_hierarchy.specs.Stands.{IsKind, IsRange};

use crate::bounds::Bounds;
use crate::standing::Standing;
use v_sizes::Const;
use v_syntax::ParameterType;

/// The type of a parameter.
#[derive(Clone, Copy)]
pub enum Kind {
    /// That of its value.
    AsValue,
    /// A sign, with a range or with that of its value.
    Typed {
        signed: bool,
        bounds: Option<Bounds>,
    },
}

/// Whether anything is written of a type.
pub fn is_written(type_of: &ParameterType) -> bool
    ensures { result ≡ is_written (parameter_type_of type_of.now) }
{
    match type_of {
        ParameterType::Vector { signed, range } => *signed || range.is_some(),
        ParameterType::Integer => true,
    }
}

/// A constant that is assigned to what has a width and a sign.
pub fn assigned(width: u8, signed: bool, value: Const) -> Const
    requires least { 1 ≤ width }
    requires most { width ≤ 128 }
    ensures { result ≡ assigned width signed value }
{
    let bits = if value.bits.width() < width {
        value.bits.extend(width, value.signed)
    } else {
        value.bits.cut(width)
    };
    Const { bits, signed }
}

/// The range of a width that is not written.
fn down_from(width: u8) -> Bounds
    ensures { result ≡ down_from width }
{
    Bounds {
        left: i32::from(width) - 1,
        right: 0,
    }
}

/// What a parameter of a sign and a range is declared as, with this value.
fn ranged<'t>(signed: bool, bounds: Bounds, value: Const) -> Standing<'t>
    requires { IsRange bounds }
    ensures standing { standing_of result ≡ constant (assigned (width bounds) signed value) bounds }
    ensures stands { IsMeaning (meaning_of (standing_of result)) }
{
    let value = assigned(bounds.width(), signed, value);
    Standing::Constant { value, bounds }
}

impl Kind {
    /// The width to which a value of this type is assigned, 0 for none.
    pub fn context(self) -> u8
        requires { IsKind self }
        ensures context { result ≡ context_of self }
        ensures most { result ≤ 128 }
    {
        match self {
            Kind::Typed {
                signed: _,
                bounds: Some(bounds),
            } => bounds.width(),
            _ => 0,
        }
    }

    /// What a parameter of this type is declared as, with this value.
    #[tactic(auto, using(crate::proofs::AssignedLaws::bits_range))]
    pub fn valued<'t>(self, value: Const) -> Standing<'t>
        requires { IsKind self }
        ensures standing { standing_of result ≡ valued self value }
        ensures stands { IsMeaning (meaning_of (standing_of result)) }
    {
        match self {
            Kind::AsValue => Standing::Constant {
                value,
                bounds: down_from(value.bits.width()),
            },
            Kind::Typed {
                signed,
                bounds: None,
            } => Standing::Constant {
                value: Const {
                    bits: value.bits,
                    signed,
                },
                bounds: down_from(value.bits.width()),
            },
            Kind::Typed {
                signed,
                bounds: Some(bounds),
            } => ranged(signed, bounds, value),
        }
    }
}
