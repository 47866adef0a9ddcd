//! Problems with too many variables or literals, by their suspects alone.

ghost use Rattle.std.specs.Prelude.{All, IfOk, length};
ghost use Rattle.design_core.specs.TraceFits.{IsTraceOf};
ghost use Rattle.front_end.specs.Means.{IsReady};
ghost use Rattle.suspect_map.specs.Groups.{AreWithin};

use debug_core::{DebugErr, Debugger, Question, have_few_cycles};
use design_core::{Design, Trace};
use design_fits::is_trace_of;
use front_end::Ordered;
use loc_base::Items;
use small_networks::{NetworkErr, OR_NOT, checked, name, network, word};
use std::alloc::Global;
use std::test::Fail;
use suspect_map::{Group, Groups};

/// So many suspects, all with the ordered place of a design, or with none.
fn alike(alloc: Global, d: &Design, count: u32, with_place: bool) -> Result<Groups, NetworkErr>
    ensures { IfOk result (AreWithin (length d.now.places.items)) }
{
    let mut groups = Items::new(alloc);
    if d.places.is_empty() {
        return Ok(groups);
    }
    for _suspect in 0..count {
        let mut places = Items::new(alloc);
        if with_place {
            places.push(0)?;
        }
        groups.push(Group {
            kind: name(alloc, "k")?,
            label: name(alloc, "m")?,
            places,
        })?;
    }
    Ok(groups)
}

/// One trace of so many cycles, for two inputs that are 0 and an output that is to be 1.
fn long(alloc: Global, d: &Design, cycles: u32) -> Result<Vec<Trace>, NetworkErr>
    ensures { IfOk result (λ traces. All (IsTraceOf d.now) traces.items) }
{
    let mut trace = Trace {
        cycles,
        inputs: Vec::new(alloc),
        expected: Vec::new(alloc),
    };
    for _cycle in 0..cycles {
        trace.inputs.push(word(false)?)?;
        trace.inputs.push(word(false)?)?;
        trace.expected.push(checked(b'1')?)?;
    }
    let mut traces = Vec::new(alloc);
    if !is_trace_of(d, &trace) {
        return Err(NetworkErr::Unfit);
    }
    traces.push(trace)?;
    Ok(traces)
}

/// Why a question is refused, for sets of at most 8.
fn refusal(
    alloc: Global,
    ordered: &Ordered,
    traces: &[Trace],
    groups: &Groups,
) -> Result<DebugErr, Fail>
    requires ready { IsReady ordered.now.design ordered.now.order }
    requires traces { All (IsTraceOf ordered.now.design) traces.now }
    requires groups { AreWithin (length ordered.now.design.places.items) groups.now }
{
    if !have_few_cycles(traces) {
        return Err(Fail::new("too large"));
    }
    let question = Question {
        design: &ordered.design,
        order: &ordered.order,
        traces,
        groups,
        k: 8,
    };
    match Debugger::new(alloc, &question) {
        Ok(_debugger) => Err(Fail::new("a form")),
        Err(cause) => Ok(cause),
    }
}

/// Why the question of an inverted OR is refused, with one trace of so many cycles and so many suspects that are alike.
fn refused(alloc: Global, cycles: u32, count: u32, with_place: bool) -> Result<DebugErr, Fail> {
    let ordered = network(alloc, OR_NOT)?;
    let traces = long(alloc, &ordered.design, cycles)?;
    let groups = alike(alloc, &ordered.design, count, with_place)?;
    refusal(alloc, &ordered, &traces, &groups)
}

#[test]
fn suspects_and_their_counters_are_too_many_variables(rt: HostRuntime) -> Result<(), Fail> {
    assert_eq!(rt; refused(rt.alloc(), 1, 400_010, false)?, DebugErr::Vars);
    Ok(())
}

#[test]
fn many_suspects_with_one_place_are_too_many_literals(rt: HostRuntime) -> Result<(), Fail> {
    assert_eq!(rt;
        refused(rt.alloc(), 16_100, 4_000, true)?,
        DebugErr::Literals
    );
    Ok(())
}
