//! What names stand for: names that are there, and names that hide them.
ghost use Rattle.v_sizes.specs.Context.{IsMeaning};

use loc_base::{Bits, Name};
use std::test::Fail;
use v_widths::{Const, Meaning, Scope};

/// A parameter of 4 bits.
fn inner() -> Meaning
    ensures { IsMeaning result }
{
    let value = Const {
        bits: Bits::zero(4),
        signed: true,
    };
    Meaning::Constant {
        value,
        left: 3,
        right: 0,
    }
}

/// Whether a name that stands for something isn't added, and goes on to stand for it.
pub fn is_kept<'a>(scope: &mut Scope<'a>, name: &'a Name) -> Result<bool, Fail> {
    let before = scope.find(name);
    let added = scope.add(name, inner())?;
    Ok(before.is_some() && !added && scope.find(name) == before)
}

/// Whether a name stands for something else in between, and then for what it stood for.
pub fn is_put_back<'a>(scope: &mut Scope<'a>, name: &'a Name) -> Result<bool, Fail> {
    let before = scope.find(name);
    let was = scope.put(name, inner())?;
    let between = scope.find(name);
    scope.set(name, was);
    Ok(was == before && between == Some(inner()) && scope.find(name) == before)
}

/// Whether a name that stood for something and then for nothing can be added.
pub fn is_added_again<'a>(scope: &mut Scope<'a>, name: &'a Name) -> Result<bool, Fail> {
    let was = scope.put(name, inner())?;
    scope.set(name, None);
    let between = scope.find(name);
    let added = scope.add(name, inner())?;
    Ok(was.is_none() && between.is_none() && added && scope.find(name) == Some(inner()))
}
