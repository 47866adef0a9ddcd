//! Writes one after another, where a call of the shelf or of the sink fails.

use crate::same::same;
use io_ports::{MemShelf, MemSink, Numbers, Shelf, Sink, Texts};
use refusal::{Note, Notes};
use std::alloc::Global;
use std::process::Abort;
use std::test::Fail;
use write_order::{WriteErr, begin_text, print_piece, put_piece};

/// How often it is told that the log, the report or the output can't be written.
#[derive(Clone, Copy, Debug, PartialEq, Eq)]
struct Told {
    log: u32,
    report: u32,
    output: u32,
}

impl Told {
    fn nothing() -> Told {
        Told {
            log: 0,
            report: 0,
            output: 0,
        }
    }

    fn add(&mut self, name: &str) {
        let count = match name {
            "log" => &mut self.log,
            "report" => &mut self.report,
            _ => &mut self.output,
        };
        *count = count.saturating_add(1);
    }
}

impl Notes for Told {
    fn note(&mut self, note: &Note<'_>) {
        if let Note::Unwritten { name, .. } = *note {
            self.add(name);
        }
    }
}

/// The log and a printed line, and then the report.
fn write_all<S: Shelf, O: Sink>(
    shelf: &mut S,
    out: &mut O,
    told: &mut Told,
) -> Result<(), WriteErr> {
    begin_text(shelf, "log", told)?;
    put_piece(shelf, "log", b"head\n", told)?;
    put_piece(shelf, "log", b"b -1\n", told)?;
    print_piece(out, b"set {1}\n", told)?;
    put_piece(shelf, "log", b"b -2\n", told)?;
    print_piece(out, b"set {2}\n", told)?;
    put_piece(shelf, "log", b"d : 9\n", told)?;
    begin_text(shelf, "report", told)?;
    put_piece(shelf, "report", b"{}\n", told)?;
    print_piece(out, b"complete 2\n", told)
}

fn numbers(alloc: Global, values: &[u64]) -> Result<Numbers, Fail> {
    let mut all = Numbers::new(alloc);
    for value in values {
        all.push(*value)?;
    }
    Ok(all)
}

/// What the writes left.
#[derive(Drop)]
struct Outputs {
    answer: Result<(), WriteErr>,
    shelf: MemShelf,
    out: MemSink,
    told: Told,
}

/// Writes all, where the calls of these numbers fail.
fn left_by(alloc: Global, shelf_fails: &[u64], sink_fails: &[u64]) -> Result<Outputs, Fail> {
    let mut shelf = MemShelf::new(alloc, Texts::new(alloc), numbers(alloc, shelf_fails)?);
    let mut out = MemSink::new(alloc, numbers(alloc, sink_fails)?);
    let mut told = Told::nothing();
    let answer = write_all(&mut shelf, &mut out, &mut told);
    Ok(Outputs {
        answer,
        shelf,
        out,
        told,
    })
}

/// Whether such a text stands under a name.
fn stands(shelf: &MemShelf, name: &str, wanted: Option<&str>) -> bool {
    match (shelf.text(name), wanted) {
        (Some(text), Some(wanted)) => text.as_slice() == wanted.as_bytes(),
        (None, None) => true,
        _ => false,
    }
}

/// The calls that fail, of the shelf and of the sink, the text that is said not to be written, if that is answered, the log and the
/// report, if they are begun, and what is printed.
type Row = (
    &'static [u64],
    &'static [u64],
    Option<&'static str>,
    Option<&'static str>,
    Option<&'static str>,
    &'static str,
);

/// That one text can't be written, or nothing.
fn told_of(unwritten: Option<&str>) -> Told {
    let mut told = Told::nothing();
    if let Some(name) = unwritten {
        told.add(name);
    }
    told
}

/// Each row's texts stand, its lines are printed, and it is told which write failed.
fn are_left(rt: &impl Abort, alloc: Global, rows: &[Row]) -> Result<(), Fail> {
    for row in rows {
        let (shelf_fails, sink_fails, unwritten, log, report, printed) = *row;
        let has_failed = unwritten.is_some();
        let left = left_by(alloc, shelf_fails, sink_fails)?;
        let answer = matches!(left.answer, Err(WriteErr::Failed));
        same(
            rt,
            row,
            &(answer, left.answer.is_err()),
            &(has_failed, has_failed),
        );
        same(rt, row, &left.told, &told_of(unwritten));
        same(rt, row, &stands(&left.shelf, "log", log), &true);
        same(rt, row, &stands(&left.shelf, "report", report), &true);
        same(rt, row, &left.out.text().as_slice(), &printed.as_bytes());
        let faults = (left.shelf.faults(), left.out.faults());
        let wanted = (shelf_fails.len() as u64, sink_fails.len() as u64);
        same(rt, row, &faults, &wanted);
    }
    Ok(())
}

const LOG: Option<&str> = Some("head\nb -1\nb -2\nd : 9\n");

const REPORT: Option<&str> = Some("{}\n");

const ALL: [Row; 1] = [(
    &[],
    &[],
    None,
    LOG,
    REPORT,
    "set {1}\nset {2}\ncomplete 2\n",
)];

#[test]
fn all_is_written_where_no_call_fails(rt: HostRuntime) -> Result<(), Fail> {
    are_left(&rt, rt.alloc(), &ALL)
}

const TWO: &str = "set {1}\nset {2}\n";

const SHELF_FAILS: [Row; 7] = [
    (&[0], &[], Some("log"), None, None, ""),
    (&[1], &[], Some("log"), Some("he"), None, ""),
    (&[2], &[], Some("log"), Some("head\nb "), None, ""),
    (
        &[3],
        &[],
        Some("log"),
        Some("head\nb -1\nb "),
        None,
        "set {1}\n",
    ),
    (
        &[4],
        &[],
        Some("log"),
        Some("head\nb -1\nb -2\nd :"),
        None,
        TWO,
    ),
    (&[5], &[], Some("report"), LOG, None, TWO),
    (&[6], &[], Some("report"), LOG, Some("{"), TWO),
];

#[test]
fn a_call_of_the_shelf_that_fails_ends_the_writes(rt: HostRuntime) -> Result<(), Fail> {
    are_left(&rt, rt.alloc(), &SHELF_FAILS)
}

const OUTPUT: Option<&str> = Some("");

const SINK_FAILS: [Row; 3] = [
    (&[], &[0], OUTPUT, Some("head\nb -1\n"), None, "set "),
    (
        &[],
        &[1],
        OUTPUT,
        Some("head\nb -1\nb -2\n"),
        None,
        "set {1}\nset ",
    ),
    (&[], &[2], OUTPUT, LOG, REPORT, "set {1}\nset {2}\ncompl"),
];

#[test]
fn a_call_of_the_sink_that_fails_ends_the_writes(rt: HostRuntime) -> Result<(), Fail> {
    are_left(&rt, rt.alloc(), &SINK_FAILS)
}
