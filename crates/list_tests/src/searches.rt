//! The plain search run to its end, and what it found.

ghost use Rattle.std.specs.Prelude.{All};
ghost use Rattle.design_core.specs.TraceFits.{IsTraceOf};
ghost use Rattle.plain_list.specs.Network.{IsNetwork};

use design_core::{SetWithValues, Trace};
use front_end::Ordered;
use plain_list::{PlainSearch, candidates};
use small_networks::NetworkErr;
use std::alloc::Global;
use std::test::Fail;

/// The search run to its end, which is to come within 100 sets.
pub(super) fn searched(
    alloc: Global,
    ordered: &Ordered,
    traces: &[Trace],
    size: u32,
) -> Result<PlainSearch, NetworkErr>
    requires network { IsNetwork ordered.now.design ordered.now.order }
    requires traces { All (IsTraceOf ordered.now.design) traces.now }
{
    if ordered.design.places.len() > 100 || size > 100 {
        return Err(NetworkErr::Unfit);
    }
    let mut search = PlainSearch::new(alloc, &ordered.design, size)?;
    for _step in 0..100u32 {
        if !search.next(alloc, &ordered.design, ordered.order.as_slice(), traces)? {
            return Ok(search);
        }
    }
    Err(NetworkErr::Unfit)
}

/// Whether these sets were found, in this order.
pub(super) fn has_sets(found: &[SetWithValues], sets: &[&[u32]]) -> bool {
    found.len() == sets.len()
        && found
            .iter()
            .zip(sets)
            .all(|(found, set)| found.members.as_slice() == *set)
}

/// Places, and a value of one bit for each of them in each cycle.
pub(super) type Values = (&'static [u32], &'static [u128]);

/// Whether a found set has these values.
fn are_values(found: &SetWithValues, values: &Values) -> bool {
    let rows = found.values.rows.as_slice();
    found.values.places.as_slice() == values.0
        && rows.len() == values.1.len()
        && rows.iter().zip(values.1).all(|(word, value)| word.width() == 1
            && word.value() == *value)
}

/// Whether the found sets have these values, in this order.
pub(super) fn has_values(found: &[SetWithValues], values: &[Values]) -> bool {
    found.len() == values.len()
        && found
            .iter()
            .zip(values)
            .all(|(found, values)| are_values(found, values))
}

#[test]
fn candidates_go_by_size_and_then_by_members(rt: HostRuntime) -> Result<(), Fail> {
    let alloc = rt.alloc();
    let sets = candidates(alloc, 3, 2)?;
    assert_eq!(rt; sets.len(), 7);
    assert!(rt; sets[0].is_empty());
    assert_eq!(rt; sets[3].as_slice(), [3].as_slice());
    assert_eq!(rt; sets[4].as_slice(), [1, 2].as_slice());
    assert_eq!(rt; sets[6].as_slice(), [2, 3].as_slice());
    Ok(())
}
