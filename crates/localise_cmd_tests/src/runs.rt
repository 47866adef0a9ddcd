//! Runs of the program over a shelf and a sink in memory.

use crate::own::Everything;
use io_ports::{MemShelf, MemSink, Numbers, Texts};
use loc_base::{Bytes, FreeGate, Gate};
use localise_cmd::run_words;
use refusal::NoNotes;
use std::alloc::Global;
use std::test::Fail;
use std::thread::Threads;
use suspect_map::{Blocks, Gates, Granularity, InstanceOutputs, Statements};

/// Two assignments.
const OR_NOT: &[u8] =
    b"module m(input a, input b, output y);\nwire n;\nassign n = a | b;\nassign y = ~n;\nendmodule\n";

/// A trace of it that either explains.
const OR_NOT_TRACE: &[u8] = b"$scope module m $end
$var wire 1 a a $end
$var wire 1 b b $end
$var wire 1 y y $end
$upscope $end
$enddefinitions $end
#0 0a 0b 1y
#1 1b
#2 1a 0b
#3 1b 0y
";

/// A report and a log of the first set of that list, from which it may go on.
const FRONT_REPORT: &[u8] =
    b"{\"clock\":\"\",\"ending\":\"sets\",\"inputs\":\"4e8cae5cec1457bb6699c30389d997b502e30db26b5b032c76537885b4803196\",\"kinds\":[\"stmt\"],\"sets\":[{\"members\":[1],\"values\":[[[\"0\"],[\"0\"],[\"0\"],[\"1\"]]]}],\"size\":2,\"suspects\":[{\"kind\":\"stmt\",\"label\":\"m\",\"line\":3},{\"kind\":\"stmt\",\"label\":\"m\",\"line\":4}],\"top\":\"m\",\"version\":1}
";

const FRONT_LOG: &[u8] = b"localise-log 1
inputs 4e8cae5cec1457bb6699c30389d997b502e30db26b5b032c76537885b4803196
l 4 : 9 10 1 3 2 12
d 4 : 21
b -1
";

/// A trace of two cycles that is right.
const RIGHT_TRACE: &[u8] = b"$scope module m $end
$var wire 1 a a $end
$var wire 1 b b $end
$var wire 1 y y $end
$upscope $end
$enddefinitions $end
#0 1a 1b 0y
#1 0a 0b 1y
";

/// A counter by two, and a trace of one by one.
const BY_TWO: &[u8] =
    b"module c(input clk, output reg [3:0] q);\nalways @(posedge clk)\nq <= q + 2;\nendmodule\n";

const BY_TWO_TRACE: &[u8] = b"$timescale 1ns $end
$scope module tb $end
$var reg 1 ! clk $end
$var wire 4 \" q [3:0] $end
$upscope $end
$enddefinitions $end
#0
$dumpvars
0!
bx \"
$end
#2
b0 \"
#5
1!
b1 \"
#10
0!
#15
1!
b10 \"
#20
0!
#25
1!
";

/// The two assignments as gates.
const GATES: &[u8] =
    b"module m(input a, input b, output y);\nwire n;\nor g1(n, a, b);\nnot g2(y, n);\nendmodule\n";

/// The names of the texts above, each with its text.
const TEXTS: [(&str, &[u8]); 8] = [
    ("m.v", OR_NOT),
    ("t.vcd", OR_NOT_TRACE),
    ("f", FRONT_REPORT),
    ("g", FRONT_LOG),
    ("u.vcd", RIGHT_TRACE),
    ("c.v", BY_TWO),
    ("c.vcd", BY_TWO_TRACE),
    ("g.v", GATES),
];

/// What a run left.
#[derive(Drop)]
pub(super) struct Ran {
    pub(super) status: u8,
    pub(super) shelf: MemShelf,
    pub(super) out: MemSink,
}

/// The words of a run, between spaces, and the calls of the shelf and of the sink that fail, by their numbers.
#[derive(Clone, Copy)]
pub(super) struct Asked<'a> {
    pub(super) line: &'a str,
    pub(super) shelf_fails: &'a [u64],
    pub(super) sink_fails: &'a [u64],
}

/// Words of which no call fails.
pub(super) fn words(line: &str) -> Asked<'_> {
    Asked {
        line,
        shelf_fails: &[],
        sink_fails: &[],
    }
}

/// The texts above, and beside them those that a run wrote as a report and a log, if any.
pub(super) fn texts_with(alloc: Global, found: Option<&Ran>) -> Result<Texts, Fail> {
    let mut texts = Texts::new(alloc);
    for (name, text) in &TEXTS {
        texts.add(*name, Bytes::copy_of(alloc, *text)?)?;
    }
    if let Some(ran) = found {
        texts.add("r", Bytes::copy_of(alloc, written(ran, "r"))?)?;
        texts.add("l", Bytes::copy_of(alloc, written(ran, "l"))?)?;
    }
    Ok(texts)
}

/// Four kinds of suspects of Verilog texts, and one that holds all places.
fn kinds(alloc: Global) -> Result<Vec<Box<dyn Granularity>>, Fail> {
    let mut kinds: Vec<Box<dyn Granularity>> = Vec::new(alloc);
    kinds.push(Box::new(alloc, Statements)?)?;
    kinds.push(Box::new(alloc, Blocks)?)?;
    kinds.push(Box::new(alloc, Gates)?)?;
    kinds.push(Box::new(alloc, InstanceOutputs)?)?;
    kinds.push(Box::new(alloc, Everything)?)?;
    Ok(kinds)
}

/// Runs words over texts, with a gate that the workers pass.
pub(super) fn run_by<R: Threads + Sync, G: Gate + Sync>(
    rt: &R,
    alloc: Global,
    texts: Texts,
    asked: Asked,
    gate: &G,
) -> Result<Ran, Fail> {
    let mut words = Vec::new(alloc);
    for word in asked.line.split_whitespace() {
        words.push(String::from_str(alloc, word)?)?;
    }
    let kinds = kinds(alloc)?;
    let mut shelf = MemShelf::new(alloc, texts, Numbers::copy_of(alloc, asked.shelf_fails)?);
    let mut out = MemSink::new(alloc, Numbers::copy_of(alloc, asked.sink_fails)?);
    let status = run_words(
        rt,
        alloc,
        words.as_slice(),
        kinds.as_slice(),
        &mut shelf,
        &mut out,
        &mut NoNotes,
        gate,
    );
    Ok(Ran { status, shelf, out })
}

/// Runs words over texts.
pub(super) fn run<R: Threads + Sync>(
    rt: &R,
    alloc: Global,
    texts: Texts,
    line: &str,
) -> Result<Ran, Fail> {
    run_by(rt, alloc, texts, words(line), &FreeGate)
}

/// A run that leaves a report and a log of two traces.
pub(super) fn found<R: Threads + Sync>(rt: &R, alloc: Global) -> Result<Ran, Fail> {
    let texts = texts_with(alloc, None)?;
    run(
        rt,
        alloc,
        texts,
        "find m.v m t.vcd u.vcd --report r --log l",
    )
}

/// What was written under a name; nothing where it wasn't begun.
pub(super) fn written<'a>(ran: &'a Ran, name: &str) -> &'a [u8] {
    match ran.shelf.text(name) {
        Some(text) => text.as_slice(),
        None => b"",
    }
}

/// What a run printed.
pub(super) fn printed(ran: &Ran) -> &[u8] {
    ran.out.text().as_slice()
}
