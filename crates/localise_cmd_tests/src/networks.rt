//! The lists of random networks beside those of a plain trial of all sets and values.

ghost use Rattle.std.specs.Prelude.{All};
ghost use Rattle.design_core.specs.TraceFits.{IsTraceOf};
ghost use Rattle.plain_list.specs.Network.{IsNetwork};

use crate::random::{Gate, Numbers, changed, cycle, gates, text};
use crate::runs::{printed, run};
use crate::same::same;
use design_core::{SetWithValues, Trace};
use front_end::Ordered;
use io_ports::Texts;
use loc_base::Bytes;
use plain_list::PlainSearch;
use small_networks::{network, traces};
use std::alloc::Global;
use std::process::Abort;
use std::test::Fail;
use std::thread::Threads;

/// The header of a dump of the ports.
const HEAD: &[u8] = b"$scope module m $end
$var wire 1 a n0 $end
$var wire 1 b n1 $end
$var wire 1 c n2 $end
$var wire 1 y n6 $end
$var wire 1 z n7 $end
$upscope $end
$enddefinitions $end
";

/// Their identifier codes.
const CODES: &[u8] = b"abcyz";

/// How many networks are tried.
const NETWORKS: u32 = 200;

/// The sets of a plain trial, run to its end, which is to come within 100 sets.
fn tried(alloc: Global, ordered: &Ordered, traces: &[Trace]) -> Result<PlainSearch, Fail>
    requires network { IsNetwork ordered.now.design ordered.now.order }
    requires traces { All (IsTraceOf ordered.now.design) traces.now }
{
    if ordered.design.places.len() > 100 {
        return Err(Fail::new("too large"));
    }
    let mut search = PlainSearch::new(alloc, &ordered.design, 2)?;
    for _step in 0..100u32 {
        if !search.next(alloc, &ordered.design, ordered.order.as_slice(), traces)? {
            return Ok(search);
        }
    }
    Err(Fail::new("no end"))
}

/// The lines of a set.
fn set_lines(alloc: Global, members: &[u32]) -> Result<String, Fail> {
    let mut lines = String::from_str(alloc, "set {")?;
    let mut first = true;
    for member in members {
        let word = format!(in alloc; "{member}")?;
        if !first {
            lines.push_str(",")?;
        }
        first = false;
        lines.push_str(word.as_str())?;
    }
    lines.push_str("}\n")?;
    for member in members {
        let at = member.wrapping_add(4);
        let line = format!(in alloc; "  {member} stmt {at} m\n")?;
        lines.push_str(line.as_str())?;
    }
    Ok(lines)
}

/// The lines of a whole list.
fn list_lines(alloc: Global, sets: &[SetWithValues]) -> Result<String, Fail> {
    let mut lines = String::new(alloc);
    for set in sets {
        let of_set = set_lines(alloc, set.members.as_slice())?;
        lines.push_str(of_set.as_str())?;
    }
    let count = sets.len();
    let last = format!(in alloc; "complete {count}\n")?;
    lines.push_str(last.as_str())?;
    Ok(lines)
}

/// Three cycles of a network by random inputs, each with a digit for each port.
fn rows(alloc: Global, gates: &[Gate], numbers: &mut Numbers) -> Result<Vec<String>, Fail> {
    let mut rows = Vec::new(alloc);
    for _ in 0..3 {
        rows.push(cycle(alloc, gates, numbers.below(8))?)?;
    }
    Ok(rows)
}

fn slices<'a>(alloc: Global, rows: &'a [String]) -> Result<Vec<&'a str>, Fail> {
    let mut slices = Vec::new(alloc);
    for row in rows {
        slices.push(row.as_str())?;
    }
    Ok(slices)
}

/// A list of one dump.
fn only<'a>(alloc: Global, cycles: &'a [&'a str]) -> Result<Vec<&'a [&'a str]>, Fail> {
    let mut dumps = Vec::new(alloc);
    dumps.push(cycles)?;
    Ok(dumps)
}

/// What a plain trial lists for a design and a dump's cycles.
fn plain(alloc: Global, design: &str, cycles: &[&str]) -> Result<String, Fail> {
    let ordered = network(alloc, design.as_bytes())?;
    let dumps = only(alloc, cycles)?;
    let traces = traces(alloc, &ordered.design, &dumps)?;
    let search = tried(alloc, &ordered, &traces)?;
    list_lines(alloc, search.found())
}

/// The dump of cycles, each of which has a digit for each port.
fn dump(alloc: Global, cycles: &[&str]) -> Result<Bytes, Fail> {
    let mut dump = Bytes::copy_of(alloc, HEAD)?;
    for (time, cycle) in cycles.iter().enumerate() {
        dump.append(format!(in alloc; "#{time}\n")?.as_bytes())?;
        for (digit, code) in cycle.as_bytes().iter().zip(CODES.iter()) {
            dump.push(*digit)?;
            dump.push(*code)?;
            dump.push(b'\n')?;
        }
    }
    Ok(dump)
}

/// The list of a random network, with other operators at two of its gates, is that of a plain trial, by a dump of the network as it was.
fn is_tried<R: Threads + Sync + Abort>(
    rt: &R,
    alloc: Global,
    number: u32,
    numbers: &mut Numbers,
) -> Result<(), Fail> {
    let right = gates(alloc, numbers)?;
    let design = text(alloc, &changed(alloc, &right, numbers)?)?;
    let rows = rows(alloc, &right, numbers)?;
    let cycles = slices(alloc, &rows)?;
    let wanted = plain(alloc, design.as_str(), &cycles)?;
    let mut texts = Texts::new(alloc);
    texts.add("m.v", Bytes::copy_of(alloc, design.as_bytes())?)?;
    texts.add("t.vcd", dump(alloc, &cycles)?)?;
    let ran = run(rt, alloc, texts, "find m.v m t.vcd")?;
    same(rt, &number, &printed(&ran), &wanted.as_bytes());
    same(rt, &number, &ran.status, &0);
    Ok(())
}

#[test]
fn random_networks_have_the_lists_of_a_plain_trial(rt: HostRuntime) -> Result<(), Fail> {
    let mut numbers = Numbers { state: 1 };
    for number in 0..NETWORKS {
        is_tried(&rt, rt.alloc(), number, &mut numbers)?;
    }
    Ok(())
}
