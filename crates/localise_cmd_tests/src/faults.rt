//! What is left where a call of the shelf or of the sink fails, for each call of each command in turn.

use crate::runs::{Asked, Ran, found, printed, run, run_by, texts_with, words, written};
use crate::same::same;
use io_ports::Texts;
use loc_base::{Bytes, FreeGate};
use std::alloc::Global;
use std::process::Abort;
use std::test::Fail;
use std::thread::Threads;

/// A call that is due: a text is loaded, or it is asked whether it can be begun, or it is begun, or has a piece put behind what stands
/// there, up to a part of the whole or to its end, which no part is; or lines are printed.
#[derive(Clone, Copy)]
enum Due<'a> {
    Load(&'a str),
    Ask(&'a str),
    Begin(&'a str),
    Put(&'a str, &'a [u8]),
    Print(&'a str),
}

/// The names of the texts that the commands read or write here.
const NAMES: [&str; 19] = [
    "m.v",
    "t.vcd",
    "u.vcd",
    "c.v",
    "c.vcd",
    "r",
    "l",
    "f",
    "g",
    "localise.log",
    "localise.json",
    "made.v",
    "made.vcd",
    "w-1-1.vcd",
    "w-2-1.vcd",
    "k-1.log",
    "k-1.json",
    "k-2.log",
    "k-2.json",
];

/// No text here has it as a part.
const END: &[u8] = b"\n\n";

const LOG: &str = "localise.log";

const REPORT: &str = "localise.json";

/// The heads of logs; their digests were computed apart from the program.
const OR_NOT_HEAD: &[u8] =
    b"localise-log 1\ninputs 4e8cae5cec1457bb6699c30389d997b502e30db26b5b032c76537885b4803196\n";

const MADE_HEAD: &[u8] =
    b"localise-log 1\ninputs 54e69af254a6cd78c358cc5b0bc71134308bc84c9f6f8c65132e86aceede0dd1\n";

const FIRST: &str = "set {1}\n  1 stmt 3 m\n";

const SECOND: &str = "set {2}\n  2 stmt 4 m\n";

const LISTED: [Due<'static>; 14] = [
    Due::Load("m.v"),
    Due::Load("t.vcd"),
    Due::Ask(LOG),
    Due::Ask(REPORT),
    Due::Begin(LOG),
    Due::Put(LOG, OR_NOT_HEAD),
    Due::Put(LOG, b"\nb -1\n"),
    Due::Print(FIRST),
    Due::Put(LOG, b"\nb -2\n"),
    Due::Print(SECOND),
    Due::Put(LOG, END),
    Due::Begin(REPORT),
    Due::Put(REPORT, END),
    Due::Print("complete 2\n"),
];

const WAVED: [Due<'static>; 19] = [
    Due::Load("m.v"),
    Due::Load("t.vcd"),
    Due::Ask(LOG),
    Due::Ask(REPORT),
    Due::Ask("w-1-1.vcd"),
    Due::Begin(LOG),
    Due::Put(LOG, OR_NOT_HEAD),
    Due::Put(LOG, b"\nb -1\n"),
    Due::Print(FIRST),
    Due::Put(LOG, b"\nb -2\n"),
    Due::Print(SECOND),
    Due::Put(LOG, END),
    Due::Begin(REPORT),
    Due::Put(REPORT, END),
    Due::Begin("w-1-1.vcd"),
    Due::Put("w-1-1.vcd", END),
    Due::Begin("w-2-1.vcd"),
    Due::Put("w-2-1.vcd", END),
    Due::Print("complete 2\n"),
];

const CHECKPOINTED: [Due<'static>; 24] = [
    Due::Load("m.v"),
    Due::Load("t.vcd"),
    Due::Ask(LOG),
    Due::Ask(REPORT),
    Due::Ask("k-1.log"),
    Due::Ask("k-1.json"),
    Due::Begin(LOG),
    Due::Put(LOG, OR_NOT_HEAD),
    Due::Put(LOG, b"\nb -1\n"),
    Due::Print(FIRST),
    Due::Begin("k-1.log"),
    Due::Put("k-1.log", END),
    Due::Begin("k-1.json"),
    Due::Put("k-1.json", END),
    Due::Put(LOG, b"\nb -2\n"),
    Due::Print(SECOND),
    Due::Begin("k-2.log"),
    Due::Put("k-2.log", END),
    Due::Begin("k-2.json"),
    Due::Put("k-2.json", END),
    Due::Put(LOG, END),
    Due::Begin(REPORT),
    Due::Put(REPORT, END),
    Due::Print("complete 2\n"),
];

const FRONT: [Due<'static>; 12] = [
    Due::Load("m.v"),
    Due::Load("t.vcd"),
    Due::Ask(LOG),
    Due::Ask(REPORT),
    Due::Begin(LOG),
    Due::Put(LOG, OR_NOT_HEAD),
    Due::Put(LOG, b"\nb -1\n"),
    Due::Print(FIRST),
    Due::Put(LOG, END),
    Due::Begin(REPORT),
    Due::Put(REPORT, END),
    Due::Print("front 1 sets\n"),
];

const RESUMED: [Due<'static>; 15] = [
    Due::Load("m.v"),
    Due::Load("t.vcd"),
    Due::Load("f"),
    Due::Load("g"),
    Due::Ask(LOG),
    Due::Ask(REPORT),
    Due::Begin(LOG),
    Due::Put(LOG, b"\nb -1\n"),
    Due::Print(FIRST),
    Due::Put(LOG, b"\nb -2\n"),
    Due::Print(SECOND),
    Due::Put(LOG, END),
    Due::Begin(REPORT),
    Due::Put(REPORT, END),
    Due::Print("complete 2\n"),
];

const MADE: [Due<'static>; 19] = [
    Due::Begin("made.v"),
    Due::Put("made.v", END),
    Due::Begin("made.vcd"),
    Due::Put("made.vcd", END),
    Due::Ask(LOG),
    Due::Ask(REPORT),
    Due::Begin(LOG),
    Due::Put(LOG, MADE_HEAD),
    Due::Put(LOG, b"\nb -2\n"),
    Due::Print("set {2}\n  2 stmt 7 made\n"),
    Due::Put(LOG, b"\nb -4\n"),
    Due::Print("set {4}\n  4 stmt 10 made\n"),
    Due::Put(LOG, b"\nb -5\n"),
    Due::Print("set {5}\n  5 stmt 11 made\n"),
    Due::Put(LOG, END),
    Due::Begin(REPORT),
    Due::Put(REPORT, END),
    Due::Print("complete 3\n"),
    Due::Print("made 0 stages 3 width 8 cycles 7\n"),
];

const JUDGED: [Due<'static>; 6] = [
    Due::Load("r"),
    Due::Load("m.v"),
    Due::Load("t.vcd"),
    Due::Load("u.vcd"),
    Due::Load("l"),
    Due::Print("yes 2\n"),
];

const COUNTED: [Due<'static>; 6] = [
    Due::Load("c.v"),
    Due::Load("c.vcd"),
    Due::Print("1 0 q=0\n"),
    Due::Print("1 1 q=2\n"),
    Due::Print("1 2 q=4\n"),
    Due::Print("trace 1 miss 1 q\n"),
];

/// Words, the calls that are due, and the status where none fails.
type Row = (&'static str, &'static [Due<'static>], u8);

const RUNS: [Row; 10] = [
    ("find m.v m t.vcd", &LISTED, 0),
    ("find m.v m t.vcd --waves w", &WAVED, 0),
    ("find m.v m t.vcd --checkpoint k", &CHECKPOINTED, 0),
    ("find m.v m t.vcd --sets 1", &FRONT, 1),
    ("find m.v m t.vcd --resume f --resume-log g", &RESUMED, 0),
    ("make 0", &MADE, 0),
    ("check m.v m r l t.vcd u.vcd", &JUDGED, 0),
    ("sim c.v c c.vcd --clock clk", &COUNTED, 0),
    ("sim m.v m", &[Due::Print("usage words\n")], 2),
    (
        "find other.v m t.vcd",
        &[Due::Print("read fault other.v\n")],
        5,
    ),
];

/// A text up to and with a part of it; all of it, where it hasn't the part.
fn through<'a>(text: &'a [u8], part: &[u8]) -> &'a [u8] {
    for to in 0..text.len() {
        if text[..to].ends_with(part) {
            return &text[..to];
        }
    }
    text
}

/// What stands under a name behind a call that is carried out, of the text that is whole in the end; none where it isn't begun.
fn put_behind<'a>(
    text: Option<&'a [u8]>,
    whole: &'a [u8],
    due: Due,
    name: &str,
) -> Option<&'a [u8]> {
    match due {
        Due::Begin(begun) if begun == name => Some(b""),
        Due::Put(put, part) if put == name => Some(through(whole, part)),
        _ => text,
    }
}

/// The same, behind calls.
fn standing<'a>(whole: &'a [u8], dues: &[Due], name: &str) -> Option<&'a [u8]> {
    let mut text = None;
    for due in dues {
        text = put_behind(text, whole, *due, name);
    }
    text
}

/// What calls print.
fn lines_of(alloc: Global, dues: &[Due]) -> Result<String, Fail> {
    let mut text = String::new(alloc);
    for due in dues {
        if let Due::Print(lines) = *due {
            text.push_str(lines)?;
        }
    }
    Ok(text)
}

/// How many of the calls print.
fn prints(dues: &[Due]) -> u64 {
    let mut count = 0u64;
    for due in dues {
        if let Due::Print(_lines) = *due {
            count = count.wrapping_add(1);
        }
    }
    count
}

/// The words of a run in which the call behind some fails, and where a text isn't loaded, whether the line that says so can be printed.
#[derive(Clone, Copy)]
struct Failing<'a> {
    line: &'a str,
    before: &'a [Due<'a>],
    due: Due<'a>,
    is_told: bool,
}

impl Failing<'_> {
    fn run<R: Threads + Sync>(&self, rt: &R, alloc: Global, texts: Texts) -> Result<Ran, Fail> {
        let lines = prints(self.before);
        let print = [lines];
        let call = [(self.before.len() as u64).wrapping_sub(lines)];
        let asked = match self.due {
            Due::Print(_lines) => Asked {
                sink_fails: &print,
                ..words(self.line)
            },
            Due::Load(_name) if !self.is_told => Asked {
                line: self.line,
                shelf_fails: &call,
                sink_fails: &print,
            },
            _ => Asked {
                shelf_fails: &call,
                ..words(self.line)
            },
        };
        run_by(rt, alloc, texts, asked, &FreeGate)
    }

    /// Whether the text under a name is what stood before the failing call, and a front of what it was to put there. A text that it
    /// was to begin is as before or empty.
    fn leaves(&self, text: Option<&[u8]>, whole: &[u8], name: &str) -> bool {
        let before = standing(whole, self.before, name);
        match (text, before, put_behind(before, whole, self.due, name)) {
            (None, None, _) => true,
            (Some(text), None, Some(_begun)) => text.is_empty(),
            (Some(text), Some(before), Some(due)) => {
                text.starts_with(before) && due.starts_with(text)
            }
            _ => false,
        }
    }

    /// Whether each text is left so; the run in which no call failed has the whole ones.
    fn leaves_all(&self, ran: &Ran, whole: &Ran) -> bool {
        for name in NAMES {
            let text = ran.shelf.text(name).map(Bytes::as_slice);
            if !self.leaves(text, written(whole, name), name) {
                return false;
            }
        }
        true
    }

    /// Whether what is printed is what was printed before the failing call, and a front of what it was to print. A text that isn't
    /// loaded is named.
    fn is_printed(&self, alloc: Global, text: &[u8]) -> Result<bool, Fail> {
        let before = lines_of(alloc, self.before)?;
        match self.due {
            Due::Load(name) => {
                let line = format!(in alloc; "read fault {name}\n")?;
                let is_whole = text.len() == line.len();
                Ok(line.as_bytes().starts_with(text) && is_whole == self.is_told)
            }
            Due::Print(lines) => {
                let due = format!(in alloc; "{before}{lines}")?;
                let is_front = due.as_bytes().starts_with(text) && text.len() < due.len();
                Ok(is_front && text.starts_with(before.as_bytes()))
            }
            _ => Ok(text == before.as_bytes()),
        }
    }

    fn status(&self) -> u8 {
        match self.due {
            Due::Load(_name) if self.is_told => 5,
            _ => 6,
        }
    }
}

/// What was found before, and what a run leaves in which no call fails.
#[derive(Clone, Copy)]
struct Beside<'a> {
    found: &'a Ran,
    whole: &'a Ran,
}

/// The call that fails is the last, and leaves a front of what was due.
fn stops<R: Threads + Sync + Abort>(
    rt: &R,
    alloc: Global,
    failing: &Failing,
    beside: &Beside,
) -> Result<(), Fail> {
    let row = (failing.line, failing.before.len(), failing.is_told);
    let texts = texts_with(alloc, Some(beside.found))?;
    let ran = failing.run(rt, alloc, texts)?;
    same(rt, &row, &ran.status, &failing.status());
    same(rt, &row, &failing.is_printed(alloc, printed(&ran))?, &true);
    same(rt, &row, &failing.leaves_all(&ran, beside.whole), &true);
    Ok(())
}

/// A run in which no call fails is what its row says, and so is each in which one does.
fn each_stops<R: Threads + Sync + Abort>(
    rt: &R,
    alloc: Global,
    found: &Ran,
    row: &Row,
) -> Result<(), Fail> {
    let (line, dues, status) = *row;
    let whole = run(rt, alloc, texts_with(alloc, Some(found))?, line)?;
    let lines = lines_of(alloc, dues)?;
    same(rt, &line, &printed(&whole), &lines.as_bytes());
    same(rt, &line, &whole.status, &status);
    let beside = Beside {
        found,
        whole: &whole,
    };
    for place in 0..dues.len() {
        for is_told in [true, false] {
            let failing = Failing {
                line,
                before: &dues[..place],
                due: dues[place],
                is_told,
            };
            stops(rt, alloc, &failing, &beside)?;
        }
    }
    Ok(())
}

#[test]
fn a_call_that_fails_is_the_last_and_leaves_a_front_of_what_was_due(
    rt: HostRuntime,
) -> Result<(), Fail> {
    let alloc = rt.alloc();
    let found = found(&rt, alloc)?;
    for row in &RUNS {
        each_stops(&rt, alloc, &found, row)?;
    }
    Ok(())
}
