//! Logs that are cut, at each of their bytes.

use crate::runs::{printed, run, texts_with};
use crate::same::same;
use loc_base::Bytes;
use std::alloc::Global;
use std::process::Abort;
use std::test::Fail;
use std::thread::Threads;

/// The report of a list, written out by hand; its digest was computed apart from the program.
const REPORT: &[u8] =
    b"{\"clock\":\"\",\"ending\":\"complete\",\"inputs\":\"4e8cae5cec1457bb6699c30389d997b502e30db26b5b032c76537885b4803196\",\"kinds\":[\"stmt\"],\"sets\":[{\"members\":[1],\"values\":[[[\"0\"],[\"0\"],[\"0\"],[\"1\"]]]},{\"members\":[2],\"values\":[[[\"1\"],[\"1\"],[\"1\"],[\"0\"]]]}],\"size\":2,\"suspects\":[{\"kind\":\"stmt\",\"label\":\"m\",\"line\":3},{\"kind\":\"stmt\",\"label\":\"m\",\"line\":4}],\"top\":\"m\",\"version\":1}\n";

/// A log that shows it. The form has 20 clauses, so the steps have the numbers 21 to 25.
const LOG: &[u8] =
    b"localise-log 1\ninputs 4e8cae5cec1457bb6699c30389d997b502e30db26b5b032c76537885b4803196\nl 4 : 9 10 1 3 2 12\nd 4 : 21\nb -1\nb -2\nd : 24 10 9 23 12\n";

/// What is said of whole lines of the log, from the head on: the block of the first set is step 3 and that of the second step 4; without
/// the last step nothing closes the list, but the block of the first set shows that none is missing before the second.
const JUDGED: [&str; 5] = [
    "no step 1\n",
    "no step 2\n",
    "no step 3\n",
    "no step 4\n",
    "front 2\n",
];

/// The status with each of these.
const STATUSES: [u8; 5] = [8, 8, 8, 8, 1];

const LINES: [&str; 2] = ["check m.v m r l t.vcd", "check m.v m r l t.vcd --workers 7"];

/// A front of the log has its answer, where it is cut in a line, counted from 1, or before it.
fn is_answered<R: Threads + Sync + Abort>(
    rt: &R,
    alloc: Global,
    front: &[u8],
    line: usize,
) -> Result<(), Fail> {
    let refused = format!(in alloc; "input G1 {line}\n")?;
    let step = line.wrapping_sub(3);
    let status = STATUSES.get(step).copied().unwrap_or(3);
    let wanted = match JUDGED.get(step) {
        Some(judged) if front.ends_with(b"\n") => (*judged, status),
        _ => (refused.as_str(), 3),
    };
    for words in LINES {
        let mut texts = texts_with(alloc, None)?;
        texts.add("r", Bytes::copy_of(alloc, REPORT)?)?;
        texts.add("l", Bytes::copy_of(alloc, front)?)?;
        let ran = run(rt, alloc, texts, words)?;
        let (said, status) = wanted;
        let row = (front.len(), words);
        same(rt, &row, &printed(&ran), &said.as_bytes());
        same(rt, &row, &ran.status, &status);
    }
    Ok(())
}

/// A log that is cut within a line is refused at that line, and within its head at the next. Behind its head it is judged by the steps
/// that are left.
#[test]
fn a_log_that_is_cut_is_refused_or_judged_by_what_is_left(rt: HostRuntime) -> Result<(), Fail> {
    let mut line = 1usize;
    for length in 0..LOG.len() {
        let front = &LOG[..length];
        if front.ends_with(b"\n") {
            line = line.wrapping_add(1);
        }
        is_answered(&rt, rt.alloc(), front, line)?;
    }
    Ok(())
}
