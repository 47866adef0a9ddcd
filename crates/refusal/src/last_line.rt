//! The line that ends a run, with its status, and its print.
ghost use Rattle.std.specs.Prelude.{◌≡◌, ◌++◌, ◌⊎◌, List, IfOk, IsErr, OnOk, codes, true, ℕ};
ghost use Rattle.command_contract.specs.Contract.{IsInputRefusal};
ghost use Rattle.refusal.specs.Codes.{code_line, code_status};
ghost use Rattle.refusal.specs.Ends.{HasStatus, IsMemory, PrintCounts, Prints, Says, line_of, status_of};
ghost use Rattle.refusal.specs.Lines.{fault_line};

use crate::code::Code;
use io_ports::{Sink, SinkFault};
use loc_base::NoMemory;
use printed_text::push_bytes;
use std::alloc::Global;

/// The line that ends a run which is refused.
#[derive(Debug, Drop)]
pub enum LastLine {
    /// A line, with the status of the program.
    Line { status: u8, line: Vec<u8> },
    /// `memory`: memory was refused, to the run or to the line.
    Memory,
}

/// Appends `read fault NAME`.
fn push_fault(text: &mut Vec<u8>, name: &str) -> Result<(), NoMemory>
    ensures { OnOk result (text.new.items ≡ text.old.items ++ fault_line name.now) }
{
    push_bytes(text, b"read fault ")?;
    push_bytes(text, name.as_bytes())?;
    push_bytes(text, b"\n")
}

impl LastLine {
    /// A line with its status.
    pub fn of(status: u8, line: Vec<u8>) -> LastLine
        requires { IsInputRefusal status ⊎ (status ≡ 7) }
        ensures says { Says result status line.items }
        ensures status { HasStatus result }
        ensures memory { IsMemory result → status ≡ 7 }
    {
        if status == 7 {
            LastLine::Memory
        } else {
            LastLine::Line { status, line }
        }
    }

    /// A line that was made, with its status, or none where memory ran out for it.
    pub fn of_made(status: u8, made: Result<Vec<u8>, NoMemory>) -> LastLine
        requires { IsInputRefusal status ⊎ (status ≡ 7) }
        ensures says { (text : List ℕ) → IfOk made (λ line. line.items ≡ text) → Says result status text }
        ensures status { HasStatus result }
        ensures memory { IsMemory result → (status ≡ 7) ⊎ IsErr made }
    {
        match made {
            Ok(line) => LastLine::of(status, line),
            Err(NoMemory) => LastLine::Memory,
        }
    }

    /// The line of a code.
    pub fn of_code(alloc: Global, code: Code) -> LastLine
        ensures says { Says result (code_status code) (code_line code) }
        ensures status { HasStatus result }
    {
        let mut line = Vec::new(alloc);
        match code.push(&mut line) {
            Ok(()) => LastLine::of(code.status(), line),
            Err(NoMemory) => LastLine::Memory,
        }
    }

    /// `read fault NAME`: the text under the name can't be read.
    pub fn of_fault(alloc: Global, name: &str) -> LastLine
        ensures says { Says result 5 (fault_line name.now) }
        ensures status { HasStatus result }
    {
        let mut line = Vec::new(alloc);
        match push_fault(&mut line, name) {
            Ok(()) => LastLine::Line { status: 5, line },
            Err(NoMemory) => LastLine::Memory,
        }
    }

    /// Prints the line, and answers the status of the program.
    pub fn print<O: Sink>(&self, out: &mut O) -> u8
        ensures tells { O.tells out.new ≡ O.tells out.old }
        ensures text { O.tells out.old ≡ true
            → Prints (line_of self.now) (status_of self.now) (O.written out.old) (O.written out.new) result }
        ensures counts { PrintCounts (status_of self.now) (O.faults out.old) (O.faults out.new) result }
    {
        match self {
            LastLine::Line { status, line } => print_line(line, *status, out),
            LastLine::Memory => print_line(b"memory\n", 7, out),
        }
    }
}

/// Prints a line. The status is that of the whole line; where the sink fails it is 6, where memory runs out 7.
pub fn print_line<O: Sink>(line: &[u8], status: u8, out: &mut O) -> u8
    ensures tells { O.tells out.new ≡ O.tells out.old }
    ensures text { O.tells out.old ≡ true → Prints line.now status (O.written out.old) (O.written out.new) result }
    ensures counts { PrintCounts status (O.faults out.old) (O.faults out.new) result }
{
    match out.put(line) {
        Ok(()) => status,
        Err(SinkFault::Failed(_)) => 6,
        Err(SinkFault::NoMemory) => 7,
    }
}
