//! Texts of logs read by 1, 2, 7 and 64 workers.

ghost use Rattle.std.specs.Prelude.{◌<◌};

use crate::logs::pieces::WORKERS;
use crate::logs::{LINES, STEPS, with_front};
use loc_base::NoMemory;
use proof_check::types::LogErr;
use proof_check::{log_text, read_log_parallel};
use std::alloc::Global;
use std::process::Abort;
use std::test::Fail;
use std::thread::Threads;

/// How often the steps stand in a text.
const TIMES: u64 = 40;

/// How many lines stand before those of a row: the first two, and five for each time.
const BEFORE: u64 = 5 * TIMES;

/// A log's text with the steps many times, and then these lines.
fn long_text(alloc: Global, last: &[u8]) -> Result<Vec<u8>, NoMemory> {
    let mut steps = Vec::new(alloc);
    for _ in 0..TIMES {
        steps.extend_from_slice(STEPS)?;
    }
    steps.extend_from_slice(last)?;
    with_front(alloc, &steps)
}

/// The text of the log that so many workers read of a text.
fn text_by(
    rt: &(impl AllocGlobal + Threads + Sync),
    text: &[u8],
    workers: u32,
) -> Result<Vec<u8>, LogErr>
    requires { 0 < workers }
{
    let read = read_log_parallel(rt, rt.alloc(), text, workers)?;
    let mut written = Vec::new(rt.alloc());
    match log_text(rt.alloc(), &read) {
        Ok(text) => match written.extend_from_slice(text.as_slice()) {
            Ok(()) => Ok(written),
            Err(_) => Err(LogErr::NoMemory),
        },
        Err(_) => Err(LogErr::NoMemory),
    }
}

/// The line that is refused, by so many workers; 0 where the text is a log's.
fn bad_line_by(rt: &(impl AllocGlobal + Threads + Sync), text: &[u8], workers: u32) -> u64
    requires { 0 < workers }
{
    match read_log_parallel(rt, rt.alloc(), text, workers) {
        Err(LogErr::LogSyntax { line }) => line,
        _ => 0,
    }
}

/// That each number of workers refuses that line.
fn assert_all_refuse(rt: &(impl Abort + AllocGlobal + Threads + Sync), text: &[u8], want: u64) {
    for workers in WORKERS {
        assert!(rt; 0 < workers);
        let line = bad_line_by(rt, text, workers);
        assert!(rt; line == want, "{workers} workers: {line}");
    }
}

#[test]
fn each_number_of_workers_reads_the_whole_log(rt: HostRuntime) -> Result<(), Fail> {
    let text = long_text(rt.alloc(), b"")?;
    for workers in WORKERS {
        assert!(rt; 0 < workers);
        let Ok(read) = text_by(&rt, &text, workers) else {
            rt.abort();
        };
        assert!(rt; read.as_slice() == text.as_slice(), "{workers} workers");
    }
    Ok(())
}

#[test]
fn each_number_of_workers_names_the_first_line_that_is_no_step(
    rt: HostRuntime,
) -> Result<(), Fail> {
    for (last, line) in &LINES {
        let text = long_text(rt.alloc(), last)?;
        let want = if *line == 0 { 0 } else { *line + BEFORE };
        assert_all_refuse(&rt, &text, want);
    }
    Ok(())
}
