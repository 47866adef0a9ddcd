//! The list of an inverted OR, right and wrong in each way that is looked for, judged by several workers.

ghost use Rattle.std.specs.Prelude.{All};
ghost use Rattle.design_core.specs.TraceFits.{IsTraceOf};
ghost use Rattle.front_end.specs.Means.{IsReady};

use crate::claims::{Change, judged, set};
use cycle_sim::Miss;
use list_verdict::Verdict;
use report_doc::types::ReportSet;
use small_networks::{OR_NOT, network, traces};
use std::alloc::Global;
use std::test::Fail;
use std::thread::Threads;

/// What the trace shows: the output is low where both inputs are high, and only there.
const CYCLES: &[&str] = &["001", "011", "101", "110"];

/// The values of the net, and those of the output, that make the trace right.
const NET: &[&[&str]] = &[&["0"], &["0"], &["0"], &["1"]];

const OUTPUT: &[&[&str]] = &[&["1"], &["1"], &["1"], &["0"]];

const BOTH: &[&[&str]] = &[&["0", "1"], &["0", "1"], &["0", "1"], &["1", "0"]];

/// The judgement on sets by a log that is changed.
fn judgement<R: Threads + Sync>(
    rt: &R,
    alloc: Global,
    sets: &[ReportSet],
    change: Change,
    workers: u32,
) -> Result<Verdict, Fail> {
    let ordered = network(alloc, OR_NOT)?;
    let traces = traces(alloc, &ordered.design, &[CYCLES])?;
    judged(rt, alloc, &ordered, &traces, sets, change, workers)
}

/// The judgement on the net's set, with these texts, and the output's.
fn with_texts<R: Threads + Sync>(
    rt: &R,
    alloc: Global,
    texts: &[&[&[&str]]],
) -> Result<Verdict, Fail> {
    let mut sets = Vec::new(alloc);
    sets.push(set(alloc, &[1], texts)?)?;
    sets.push(set(alloc, &[2], &[OUTPUT])?)?;
    judgement(rt, alloc, &sets, Change::Nothing, 1)
}

#[test]
fn the_list_is_whole_for_any_number_of_workers(rt: HostRuntime) -> Result<(), Fail> {
    let alloc = rt.alloc();
    let mut sets = Vec::new(alloc);
    sets.push(set(alloc, &[1], &[NET])?)?;
    sets.push(set(alloc, &[2], &[OUTPUT])?)?;
    for workers in [1u32, 2, 7, 64] {
        assert_eq!(rt;
            judgement(&rt, alloc, &sets, Change::Nothing, workers)?,
            Verdict::Whole
        );
    }
    Ok(())
}

#[test]
fn a_set_that_comes_before_the_last_is_out_of_order(rt: HostRuntime) -> Result<(), Fail> {
    let alloc = rt.alloc();
    let mut sets = Vec::new(alloc);
    sets.push(set(alloc, &[2], &[OUTPUT])?)?;
    sets.push(set(alloc, &[1], &[NET])?)?;
    assert_eq!(rt;
        judgement(&rt, alloc, &sets, Change::Nothing, 2)?,
        Verdict::Order { set: 2 }
    );
    Ok(())
}

#[test]
fn a_set_that_contains_another_is_named_with_it(rt: HostRuntime) -> Result<(), Fail> {
    let alloc = rt.alloc();
    let mut sets = Vec::new(alloc);
    sets.push(set(alloc, &[1], &[NET])?)?;
    sets.push(set(alloc, &[2], &[OUTPUT])?)?;
    sets.push(set(alloc, &[1, 2], &[BOTH])?)?;
    let found = judgement(&rt, alloc, &sets, Change::Nothing, 1)?;
    assert_eq!(rt; found, Verdict::Contains { set: 3, other: 1 });
    Ok(())
}

#[test]
fn a_changed_value_misses(rt: HostRuntime) -> Result<(), Fail> {
    let alloc = rt.alloc();
    let found = with_texts(&rt, alloc, &[&[&["0"], &["1"], &["0"], &["1"]]])?;
    let miss = Miss {
        trace: 0,
        cycle: 1,
        output: 0,
    };
    assert_eq!(rt; found, Verdict::Replay { set: 1, miss });
    Ok(())
}

#[test]
fn texts_of_another_shape_are_out_of_order(rt: HostRuntime) -> Result<(), Fail> {
    let alloc = rt.alloc();
    let first = Verdict::Order { set: 1 };
    // Two digits for one bit, a number of two bits, a letter, no text, a cycle that is lacking, and a trace too many.
    assert_eq!(rt;
        with_texts(&rt, alloc, &[&[&["00"], &["0"], &["0"], &["1"]]])?,
        first
    );
    assert_eq!(rt;
        with_texts(&rt, alloc, &[&[&["2"], &["0"], &["0"], &["1"]]])?,
        first
    );
    assert_eq!(rt;
        with_texts(&rt, alloc, &[&[&["A"], &["0"], &["0"], &["1"]]])?,
        first
    );
    assert_eq!(rt;
        with_texts(&rt, alloc, &[&[&[], &["0"], &["0"], &["1"]]])?,
        first
    );
    assert_eq!(rt;
        with_texts(&rt, alloc, &[&[&["0"], &["0"], &["0"]]])?,
        first
    );
    assert_eq!(rt; with_texts(&rt, alloc, &[NET, NET])?, first);
    Ok(())
}

#[test]
fn members_that_are_no_set_are_out_of_order(rt: HostRuntime) -> Result<(), Fail> {
    let alloc = rt.alloc();
    for members in [&[0u32][..], &[3][..], &[1, 1][..], &[2, 1][..]] {
        let mut sets = Vec::new(alloc);
        sets.push(set(alloc, members, &[BOTH])?)?;
        assert_eq!(rt;
            judgement(&rt, alloc, &sets, Change::Nothing, 1)?,
            Verdict::Order { set: 1 }
        );
    }
    Ok(())
}

#[test]
fn a_log_without_its_last_step_shows_a_front(rt: HostRuntime) -> Result<(), Fail> {
    let alloc = rt.alloc();
    let mut sets = Vec::new(alloc);
    sets.push(set(alloc, &[1], &[NET])?)?;
    sets.push(set(alloc, &[2], &[OUTPUT])?)?;
    assert_eq!(rt;
        judgement(&rt, alloc, &sets, Change::WithoutLast, 7)?,
        Verdict::Front
    );
    Ok(())
}

#[test]
fn a_step_is_refused_where_a_literal_or_a_set_is_lacking(rt: HostRuntime) -> Result<(), Fail> {
    let alloc = rt.alloc();
    let mut sets = Vec::new(alloc);
    sets.push(set(alloc, &[1], &[NET])?)?;
    let fewer = judgement(&rt, alloc, &sets, Change::Nothing, 2)?;
    assert!(rt; matches!(fewer, Verdict::Step { number: _ }));
    sets.push(set(alloc, &[2], &[OUTPUT])?)?;
    let shorter = judgement(&rt, alloc, &sets, Change::WithoutLiteral, 2)?;
    assert!(rt; matches!(shorter, Verdict::Step { number: _ }));
    Ok(())
}
