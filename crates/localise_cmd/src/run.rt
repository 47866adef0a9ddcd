//! A run of the program.
ghost use Rattle.std.specs.Prelude.{◌&&◌, map, string_bytes};
ghost use Rattle.command_contract.specs.Contract.{counts_of, run_of};
ghost use Rattle.suspect_map.specs.Choose.{joined};
ghost use Rattle.localise_cmd.specs.Commands.{KeepsWords, tools_of};
ghost use Rattle.localise_cmd.specs.Formats.{HasError, means_by};

use crate::asking::request_by;
use crate::formats::AnyFormat;
use crate::lines::refuse;
use check_cmd::check;
use command_words::{WordsErr, page_text};
use find_cmd::find;
use io_ports::{Shelf, Sink};
use load_problem::Tools;
use loc_base::Gate;
use make_cmd::make;
use refusal::{LastLine, Notes, print_line};
use requests::Request;
use sim_cmd::simulate;
use std::alloc::Global;
use std::thread::Threads;
use suspect_map::Granularity;

/// Carries out the words behind the program's name, and answers the status of the program.
///
/// | words | what is done |
/// |---|---|
/// | `find DESIGN TOP TRACE.. [--clock NAME] [--size K] [--budget B] [--sets M] [--suspects A,B] [--workers N] [--log NAME] [--report NAME] [--waves PREFIX] [--resume NAME --resume-log NAME] [--format F] [--scope S] [--x-inputs 0]` | lists each minimal set of suspects, with a log and a report, with waves of each set where they are wanted, and from where an earlier list ended where its report and log are given (`find_cmd`) |
/// | `sim DESIGN TOP TRACE.. [--clock NAME] [--format F] [--scope S] [--x-inputs 0] [--exit-code]` | simulates the traces (`sim_cmd`) |
/// | `check DESIGN TOP REPORT LOG TRACE.. [--workers N] [--format F] [--scope S] [--x-inputs 0]` | judges a list by its report and its log (`check_cmd`) |
/// | `make NUMBER [--size K] [--budget B] [--sets M] [--suspects A,B] [--workers N] [--log NAME] [--report NAME] [--design NAME] [--trace NAME]` | writes an input that it makes, and lists its sets (`make_cmd`) |
/// | `help [COMMAND]`, `--help`, `-h`, `--version` | prints a page, or the versions of what is written (`page_text` of `command_words`) |
///
/// | status | meaning | last line |
/// |---|---|---|
/// | 0 | done | `complete N` of `find`, `trace T ok` or `trace T miss C NAME` of `sim`, `yes N` of `check`, `made N stages S width W cycles C` of `make`, the page's own of `help` |
/// | 1 | a front of the list is found, or of `check` shown | `front N budget`, `front N sets`; of `make` its own line stands after it; of `check` `front N` |
/// | 2 | the arguments are wrong | `usage W` |
/// | 3 | a text isn't what is read | `input CODE` and where |
/// | 4 | a limit is passed | `limit CODE`, `limit size` |
/// | 5 | a file can't be read | `read fault NAME` |
/// | 6 | writing failed | none |
/// | 7 | out of memory | `memory`, `front N memory`, or none |
/// | 8 | `check`: the report's table isn't the design's, or it isn't shown that its sets are the whole list or a front of it | `no top`, `no suspect S`, or `no` and the first condition that fails |
/// | 9 | `sim --exit-code`: a trace isn't right | `trace T ok` or `trace T miss C NAME` |
///
/// The kinds of suspects that `--suspects` may name are those that are given. The design is in Verilog, or with `--format aiger` in ASCII
/// AIGER. What is told to a person beside the output goes to the notes, of which no clause says anything.
pub fn run_words<R: Threads + Sync, S: Shelf, O: Sink, G: Gate + Sync, N: Notes>(
    rt: &R,
    alloc: Global,
    words: &[String],
    kinds: &[Box<dyn Granularity>],
    shelf: &mut S,
    out: &mut O,
    notes: &mut N,
    gate: &G,
) -> u8
    ensures { KeepsWords (tools_of means_by HasError (map (λ kind. called kind) kinds.now)
        (joined (λ kind. called kind) (λ kind. lists kind) kinds.now))
        (map string_bytes words.now)
        (run_of (S.tells shelf.old && O.tells out.old) (S.texts shelf.old) (S.written shelf.old) (S.written shelf.new)
        (O.written out.old) (O.written out.new)
        (counts_of (S.faults shelf.old) (S.faults shelf.new) (O.faults out.old) (O.faults out.new)))
        result }
{
    let tools = Tools {
        front: &AnyFormat,
        kinds,
        runtime: rt,
        gate,
    };
    match request_by(alloc, words, kinds) {
        Ok(Request::Find(request)) => find(alloc, &tools, &request, shelf, out, notes),
        Ok(Request::Sim(request)) => simulate(alloc, &AnyFormat, &request, shelf, out, notes),
        Ok(Request::Check(request)) => check(alloc, &tools, &request, shelf, out, notes),
        Ok(Request::Make(request)) => make(alloc, &tools, &request, shelf, out, notes),
        Ok(Request::Help(request)) => print_line(page_text(request.page), 0, out),
        Err(WordsErr::Usage(usage)) => refuse(usage, words, out, notes),
        Err(WordsErr::NoMemory) => LastLine::Memory.print(out),
    }
}
