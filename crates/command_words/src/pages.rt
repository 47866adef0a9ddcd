//! The pages of help.
ghost use Rattle.std.specs.Prelude.{◌≡◌};
ghost use Rattle.command_words.specs.Pages.{page_text};

use requests::HelpPage;

/// All commands.
pub const OVERVIEW: &[u8] =
    b"localise lists every minimal set of places in a Verilog design that can explain
failing tests. Tests are given as dumps (VCD) with the outputs that are wanted.

usage: localise COMMAND ARGUMENT..

  sim    simulates the dumps: where does the design first go wrong?
  find   lists the sets: where can the design be wrong?
  check  judges a list by its report and its log: is it the whole one?
  make   makes a design with a wrong line and a dump, and lists their sets
  help   followed by one of these prints its arguments and an example

An option may come anywhere after the command, once: --size 1 or --size=1.
--help and -h print this page, --version the versions of what is written.

status  means                                  last line
  0     done; of find: the list is whole       complete N
  1     the list ended early                   front N budget, front N sets
  2     the arguments are wrong                usage W
  3     a file isn't of a form that is read    input CODE and where
  4     a limit is passed                      limit CODE
  5     a file can't be read                   read fault NAME
  6, 7  a write failed; out of memory
  8     check: it isn't shown to be the whole  no and why

example: localise find uart_tx.v uart_tx uart_tx.vcd --clock clk --size 1
";

/// `find`.
pub const FIND: &[u8] = b"usage: localise find DESIGN TOP DUMP.. [OPTION..]

Lists every minimal set of suspects that can explain the dumps: with values of
their own, free in each cycle, they make each dump's outputs the wanted ones.

  DESIGN, TOP      the file of the design, and its top module
  DUMP             a VCD file of the top's ports, outputs as wanted; 1 to 256
  --format F       the format of the design: verilog or aiger (verilog)
  --clock NAME     the input of the top that is the clock (none)
  --scope PATH     the dumps' scope with the ports, as tb.golden (the first)
  --x-inputs 0     x and z of inputs are read as 0 (the dump is refused)
  --size K         the most suspects in a set, 0 to 8 (2)
  --suspects A,B   their kinds: and, block, gate, instance, module, stmt (stmt)
  --budget B       the most steps that may be learned, 1 to 10000000 (200000)
  --sets M         the most sets that are listed, 1 to 100000 (1000)
  --workers N      the most threads, 1 to 64 (1)
  --log NAME       the file that the log is written to, for check (localise.log)
  --report NAME    the file that the report is written to (localise.json)
  --waves PREFIX   a wave of each set S and dump T to PREFIX-S-T.vcd (none)
  --checkpoint PREFIX  while it runs, log and report to PREFIX-1.log, .json and
                   PREFIX-2.log, .json in turn, for --resume if killed (none)
  --resume R       go on from a list that ended early, by its report R (none)
  --resume-log L   and by its log L: give both, or neither (none)
In parentheses: the default.

status 0: the list is whole (complete N). 1: it ended early (front N budget,
front N sets). 2: wrong arguments. 3: a file isn't of a form that is read. 4: a
limit is passed. 5: a file can't be read. 6: a write failed. 7: out of memory.
example: localise find uart_tx.v uart_tx uart_tx.vcd --clock clk --size 1
";

/// `sim`.
pub const SIM: &[u8] = b"usage: localise sim DESIGN TOP DUMP.. [--clock NAME] [--format F]
                    [--scope PATH] [--x-inputs 0] [--exit-code]

Runs the design on the inputs of each dump, prints its outputs, and says where
they first differ from those that the dump wants.

  DESIGN, TOP    the file of the design, and its top module
  DUMP           a VCD file with the ports of the top: the inputs that were
                 applied, the outputs that are wanted; 1 to 256 of them
  --clock NAME   the input of the top that is the clock (none)
  --scope PATH   the dumps' scope with the ports, as tb.golden (the first)
  --x-inputs 0   x and z of inputs are read as 0 (the dump is refused)
  --format F     the format of the design: verilog or aiger (verilog)
  --exit-code    end with status 9 where some output differs

It prints, of dump T (from 1) and cycle C (from 0), in hex:
  T C NAME=HEX NAME=HEX ..
and after the last cycle of a dump one of:
  trace T ok             no output differs
  trace T miss C NAME    the first cycle in which one does, and there the first

status 0: all is printed. 2: the arguments are wrong. 3: a file isn't of a form
that is read (input CODE and where). 4: a limit is passed. 5: a file can't be
read. 6: a write failed. 7: out of memory. 9: all is printed, and with
--exit-code some output differs.

example: localise sim uart_tx.v uart_tx uart_tx.vcd --clock clk
";

/// `check`.
pub const CHECK: &[u8] =
    b"usage: localise check DESIGN TOP REPORT LOG DUMP.. [--workers N] [--format F]
                      [--scope PATH] [--x-inputs 0]

Judges a list that find wrote: are the sets of its report all that there are? It
searches nothing. The clock, the size and the kinds are those of the report.

  DESIGN, TOP    the file of the design, and its top module
  REPORT, LOG    the files of the report and of the log that find wrote
  DUMP           the dumps that find was given, in the same order; 1 to 256
  --workers N    the most threads, 1 to 64 (1)
  --format F     the format of the design: verilog or aiger (verilog)
  --scope PATH   the dumps' scope with the ports, as find was given (the
                 first)
  --x-inputs 0   x and z of inputs are read as 0, as find was told (the dump is
                 refused)
In parentheses: the default.

status 0: yes N: the N sets are the whole list. 1: front N: they are a front of
it, none is missing before the last. 8: the first that is so:
  no top                 the report's top isn't TOP
  no suspect S           suspect S of the report isn't that of the design
  no order S             set S isn't of the report's form, or not in order
  no contains S T        all members of set T are in set S
  no replay S T C NAME   with the values of set S dump T isn't right: first in
                         cycle C, and there at output NAME
  no step N              step N of the log isn't right
  no closing             the log shows neither the whole list nor a front of it
2: the arguments are wrong. 3: a file isn't of a form that is read, or is of
other inputs. 4: a limit is passed. 5: a file can't be read. 6: a write failed.
7: out of memory.
example:
  localise check uart_tx.v uart_tx localise.json localise.log uart_tx.vcd
";

/// `make`.
pub const MAKE: &[u8] = b"usage: localise make N [OPTION..]

Makes a design with a wrong line and a dump of what is wanted, writes both, and
lists their sets as find does. The module is made, and its clock is clk.

  N                which design, 0 to 9999
  --design NAME    the file that the design is written to (made.v)
  --trace NAME     the file that the dump is written to (made.vcd)
  --size K         the most suspects in a set, 0 to 8 (2)
  --suspects A,B   their kinds: stmt, block, gate, instance, module (stmt)
  --budget B       the most steps that may be learned, 1 to 10000000 (200000)
  --sets M         the most sets that are listed, 1 to 100000 (1000)
  --workers N      the most threads, 1 to 64 (1)
  --log NAME       the file that the log is written to, for check (localise.log)
  --report NAME    the file that the report is written to (localise.json)
In parentheses: the default.

After the list comes the line: made N stages S width W cycles C
status 0: the list is whole. 1: it ended early (front N budget, front N sets).
2: the arguments are wrong. 3, 4: what was made is refused, or passes a limit.
6: a write failed. 7: out of memory.

example: localise make 7 --size 1
";

/// The versions of what is written.
pub const VERSION: &[u8] = b"localise: logs localise-log 1, reports version 1, digests localise 1
";

/// The text of a page.
pub fn page_text(page: HelpPage) -> &'static [u8]
    ensures { result.now ≡ page_text page }
{
    match page {
        HelpPage::Overview => OVERVIEW,
        HelpPage::Find => FIND,
        HelpPage::Sim => SIM,
        HelpPage::Check => CHECK,
        HelpPage::Make => MAKE,
        HelpPage::Version => VERSION,
    }
}
