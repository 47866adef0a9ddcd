//! Lists of small networks, by the plain search and by the debugger.

use crate::debugging::{Run, listed};
use crate::searches::{Values, has_sets, has_values, searched};
use design_core::SetWithValues;
use plain_list::PlainSearch;
use small_networks::{FAN_OUT, OR_NOT, TWO_COPIES, network, traces};
use std::alloc::Global;
use std::test::Fail;

/// What is listed of a network, worked by hand.
#[derive(Clone, Copy)]
struct Case {
    text: &'static [u8],
    traces: &'static [&'static [&'static str]],
    /// How many places a set has at most.
    size: u32,
    sets: &'static [&'static [u32]],
    /// The values of each set: of those that are right the least, trace by trace.
    values: &'static [Values],
}

/// Whether a set of one list and a set of another have the same members, with values of the same places.
fn is_alike(one: &SetWithValues, other: &SetWithValues) -> bool {
    one.members.as_slice() == other.members.as_slice()
        && one.values.places.as_slice() == other.values.places.as_slice()
        && one.values.rows.len() == other.values.rows.len()
}

/// Whether two lists are of the same sets, with values of the same places.
fn are_alike(one: &[SetWithValues], other: &[SetWithValues]) -> bool {
    one.len() == other.len()
        && one
            .iter()
            .zip(other)
            .all(|(one, other)| is_alike(one, other))
}

/// What the plain search finds.
fn found(alloc: Global, case: &Case) -> Result<PlainSearch, Fail> {
    let ordered = network(alloc, case.text)?;
    let traces = traces(alloc, &ordered.design, case.traces)?;
    Ok(searched(alloc, &ordered, &traces, case.size)?)
}

/// What the debugger lists.
fn debugged(alloc: Global, case: &Case) -> Result<Run, Fail> {
    let ordered = network(alloc, case.text)?;
    let traces = traces(alloc, &ordered.design, case.traces)?;
    listed(alloc, &ordered, &traces, case.size)
}

/// Whether the plain search finds the sets of a case with its values, and the debugger lists the same sets.
fn is_listed(alloc: Global, case: &Case) -> Result<bool, Fail> {
    let search = found(alloc, case)?;
    let run = debugged(alloc, case)?;
    let sets = search.found();
    Ok(has_sets(sets, case.sets) && has_values(sets, case.values) && are_alike(&run.sets, sets))
}

fn are_listed(alloc: Global, cases: &[Case]) -> Result<bool, Fail> {
    for case in cases {
        if !is_listed(alloc, case)? {
            return Ok(false);
        }
    }
    Ok(true)
}

const INVERTED_OR: [Case; 1] = [Case {
    text: OR_NOT,
    traces: &[&["001", "011", "101", "110"]],
    size: 2,
    sets: &[&[1], &[2]],
    values: &[(&[0], &[0, 0, 0, 1]), (&[1], &[1, 1, 1, 0])],
}];

#[test]
fn an_inverted_or_is_explained_by_each_of_its_places(rt: HostRuntime) -> Result<(), Fail> {
    assert!(rt; are_listed(rt.alloc(), &INVERTED_OR)?);
    Ok(())
}

const RIGHT: [Case; 1] = [Case {
    text: OR_NOT,
    traces: &[&["001", "010", "100", "110"]],
    size: 2,
    sets: &[&[]],
    values: &[(&[], &[])],
}];

#[test]
fn what_is_right_already_is_explained_by_the_empty_set(rt: HostRuntime) -> Result<(), Fail> {
    assert!(rt; are_listed(rt.alloc(), &RIGHT)?);
    Ok(())
}

const TWO_FAULTS: [Case; 2] = [
    Case {
        text: TWO_COPIES,
        traces: &[&["0011"]],
        size: 1,
        sets: &[],
        values: &[],
    },
    Case {
        text: TWO_COPIES,
        traces: &[&["0011"]],
        size: 2,
        sets: &[&[1, 2]],
        values: &[(&[0, 1], &[1, 1])],
    },
];

#[test]
fn two_faults_are_explained_by_both_places_alone(rt: HostRuntime) -> Result<(), Fail> {
    assert!(rt; are_listed(rt.alloc(), &TWO_FAULTS)?);
    Ok(())
}

const UNCHECKED: [Case; 1] = [Case {
    text: FAN_OUT,
    traces: &[&["001x"]],
    size: 1,
    sets: &[&[1], &[2]],
    values: &[(&[0], &[1]), (&[1], &[1])],
}];

#[test]
fn an_output_that_is_not_checked_rules_nothing_out(rt: HostRuntime) -> Result<(), Fail> {
    assert!(rt; are_listed(rt.alloc(), &UNCHECKED)?);
    Ok(())
}

const OF_ONE_PLACE: Case = Case {
    text: FAN_OUT,
    traces: &[&["001x"], &["0011"]],
    size: 1,
    sets: &[&[1]],
    values: &[(&[0], &[1, 1])],
};

const OF_TWO_PLACES: Case = Case {
    text: FAN_OUT,
    traces: &[&["001x"], &["0011"]],
    size: 2,
    sets: &[&[1], &[2, 3]],
    values: &[(&[0], &[1, 1]), (&[1, 2], &[1, 0, 1, 1])],
};

#[test]
fn a_second_trace_rules_a_place_out(rt: HostRuntime) -> Result<(), Fail> {
    assert!(rt; are_listed(rt.alloc(), &[OF_ONE_PLACE, OF_TWO_PLACES])?);
    Ok(())
}

#[test]
fn a_search_goes_on_where_its_budget_was_spent(rt: HostRuntime) -> Result<(), Fail> {
    let run = debugged(rt.alloc(), &OF_TWO_PLACES)?;
    assert!(rt; run.spent >= 1);
    assert_eq!(rt; run.sets.len(), 2);
    Ok(())
}
