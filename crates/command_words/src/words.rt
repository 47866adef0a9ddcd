//! The words behind the program's name.
ghost use Rattle.std.specs.Prelude.{◌≡◌, IfOk, map, string_bytes};
ghost use Rattle.word_values.specs.Answers.{Gives};
ghost use Rattle.command_words.specs.Asked.{IsAsked};
ghost use Rattle.command_words.specs.Words.{asked};
ghost use Rattle.requests.specs.Views.{asked_of};

use crate::check::check_words;
use crate::find::find_words;
use crate::help::page_words;
use crate::make::make_words;
use crate::sim::sim_words;
use requests::{HelpRequest, Request};
use std::alloc::Global;
use word_values::{Usage, WordsErr};

/// What the words behind the program's name ask for, where kinds of suspects of these names are known:
///
/// - `find DESIGN TOP TRACE.. [--clock NAME] [--size K] [--budget B] [--sets M] [--suspects A,B] [--workers N] [--log NAME]
///   [--report NAME] [--waves PREFIX] [--checkpoint PREFIX] [--resume NAME --resume-log NAME] [--format F] [--scope S] [--x-inputs 0]`
/// - `sim DESIGN TOP TRACE.. [--clock NAME] [--format F] [--scope S] [--x-inputs 0] [--exit-code]`
/// - `check DESIGN TOP REPORT LOG TRACE.. [--workers N] [--format F] [--scope S] [--x-inputs 0]`
/// - `make NUMBER [--size K] [--budget B] [--sets M] [--suspects A,B] [--workers N] [--log NAME] [--report NAME] [--design NAME]
///   [--trace NAME]`
/// - `help [COMMAND]`, `--help`, `-h`, `--version`
///
/// There are 1 to 256 traces. The size is 0 to 8 (without the option 2), the budget 1 to 10,000,000 (200,000), the number of sets
/// 1 to 100,000 (1,000), that of workers 1 to 64 (1), that of an input that is made 0 to 9999. The suspects (`stmt`) are known,
/// each once. The format of the design is `verilog` (so too without the option) or `aiger`. The scope is a path of names in the traces,
/// joined by dots, and unknown inputs are read as `0`, no other value, where they are. Of a session that is gone on from, the report
/// and the log are named both, or neither. What is written, the log (`localise.log`), the report (`localise.json`), and for `make` the
/// design (`made.v`) and the trace (`made.vcd`), have names that are other paths than each other's and than those of what is read; with
/// `--waves`, and with `--checkpoint`, no other name begins, as a path, with its value and `-`. An option is `--x v` or `--x=v`, stands anywhere behind the command and
/// once at most; after `--` all words are positional.
pub fn request(alloc: Global, words: &[String], known: &[&str]) -> Result<Request, WordsErr>
    ensures gives { Gives asked_of (asked (map (λ w. w.now) known.now) (map string_bytes words.now)) result }
    ensures holds { IfOk result (λ request. IsAsked (map (λ w. w.now) known.now) (asked_of request)) }
{
    let Some(command) = words.first() else {
        return Err(WordsErr::Usage(Usage::Command));
    };
    match command.as_str() {
        "find" => Ok(Request::Find(find_words(alloc, words, known)?)),
        "sim" => Ok(Request::Sim(sim_words(alloc, words)?)),
        "check" => Ok(Request::Check(check_words(alloc, words)?)),
        "make" => Ok(Request::Make(make_words(alloc, words, known)?)),
        _ => match page_words(words) {
            Ok(page) => Ok(Request::Help(HelpRequest { page })),
            Err(usage) => Err(WordsErr::Usage(usage)),
        },
    }
}
