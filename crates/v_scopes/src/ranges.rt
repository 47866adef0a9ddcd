//! Ranges of declarations (IEEE 1364-2005, 4.3.1).
ghost use Rattle.std.specs.Prelude.{◌≡◌, Ok, IfOk, IfErr, option_map};
ghost use Rattle.v_syntax.specs.Tree.{tree_of};
ghost use Rattle.v_syntax.specs.PartTree.{range_of};
ghost use Rattle.v_sizes.specs.Scopes.{look_of};
ghost use Rattle.v_hierarchy.specs.Constants.{index_at, bounds_at, bounds_if};
ghost use Rattle.v_hierarchy.specs.Frames.{Refuses};
ghost use Rattle.v_hierarchy.specs.Stands.{IsRange, IsRangeIf};

use crate::constants::constant_at;
use std::alloc::Global;
use v_hierarchy::{Bounds, ElabErr, count_between, index_of, site_of};
use v_sizes::Scope;
use v_syntax::{Expr, Range};

/// The index that an expression is.
fn index_at(alloc: Global, scope: &Scope<'_>, e: &Expr) -> Result<i32, ElabErr>
    ensures ok { IfOk result (λ n. index_at (look_of scope.now) (tree_of e.now) ≡ Ok n) }
    ensures err { IfErr result (λ fault. Refuses (index_at (look_of scope.now) (tree_of e.now)) fault) }
{
    let value = constant_at(alloc, scope, 0, e)?;
    match index_of(value) {
        Some(index) => Ok(index),
        None => Err(ElabErr::Range(site_of(e).span)),
    }
}

/// The bounds from the left, then 1 to 128 bits.
#[tactic(auto, using(v_hierarchy::proofs::RangeLaws::range_laws))]
fn bounds_at(alloc: Global, scope: &Scope<'_>, range: &Range) -> Result<Bounds, ElabErr>
    ensures ok { IfOk result (λ b. bounds_at (look_of scope.now) (range_of range.now) ≡ Ok b) }
    ensures err { IfErr result (λ fault. Refuses (bounds_at (look_of scope.now) (range_of range.now)) fault) }
    ensures fits { IfOk result IsRange }
{
    let left = index_at(alloc, scope, &range.left)?;
    let right = index_at(alloc, scope, &range.right)?;
    if count_between(left, right) <= 128 {
        Ok(Bounds { left, right })
    } else {
        Err(ElabErr::Range(range.site.span))
    }
}

/// The bounds of a range that may be left out.
#[tactic(auto, using(v_hierarchy::proofs::RangeLaws::scalar_range))]
pub fn bounds_if(
    alloc: Global,
    scope: &Scope<'_>,
    range: &Option<Range>,
) -> Result<Option<Bounds>, ElabErr>
    ensures ok { IfOk result (λ b. bounds_if (look_of scope.now) (option_map range_of range.now) ≡ Ok b) }
    ensures err { IfErr result (λ fault. Refuses (bounds_if (look_of scope.now) (option_map range_of range.now)) fault) }
    ensures fits { IfOk result IsRangeIf }
{
    match range {
        Some(range) => {
            let bounds = bounds_at(alloc, scope, range)?;
            Ok(Some(bounds))
        }
        None => Ok(None),
    }
}
