//! The code of a refusal, as it is printed, and where the text is refused.
ghost use Rattle.std.specs.Prelude.{◌≡◌, ◌++◌, OnOk, codes, decimal};
ghost use Rattle.printed_text.specs.Numerals.{newline};
ghost use Rattle.refusal.specs.Codes.{code_line, code_span, code_status};

use loc_base::{NoMemory, Span};
use printed_text::{push_bytes, push_number};

/// The code of a refusal, and where the text is refused.
#[derive(Clone, Copy, Debug)]
pub enum Code {
    /// `input CODE`.
    Bare(&'static str),
    /// `input CODE FROM TO`: a span of the text, in bytes.
    At(&'static str, Span),
    /// `input CODE LINE`: a line of the text, from 1.
    Line(&'static str, u64),
    /// `limit CODE`.
    Limit(&'static str),
    /// `memory`.
    Memory,
}

/// Appends a space and a number.
fn push_after(text: &mut Vec<u8>, number: u64) -> Result<(), NoMemory>
    ensures { OnOk result (text.new.items ≡ text.old.items ++ codes " " ++ decimal number) }
{
    push_bytes(text, b" ")?;
    push_number(text, number)
}

/// Appends two words.
fn push_pair(text: &mut Vec<u8>, first: &str, second: &str) -> Result<(), NoMemory>
    ensures { OnOk result (text.new.items ≡ text.old.items ++ first.now ++ second.now) }
{
    push_bytes(text, first.as_bytes())?;
    push_bytes(text, second.as_bytes())
}

/// Appends a code and a span.
fn push_at(text: &mut Vec<u8>, code: &str, span: Span) -> Result<(), NoMemory>
    ensures { OnOk result (text.new.items ≡ text.old.items ++ codes "input " ++ code.now ++ codes " " ++ decimal span.from
        ++ codes " " ++ decimal span.to) }
{
    push_pair(text, "input ", code)?;
    push_after(text, u64::from(span.from))?;
    push_after(text, u64::from(span.to))
}

/// Appends a code and a number.
fn push_numbered(text: &mut Vec<u8>, code: &str, number: u64) -> Result<(), NoMemory>
    ensures { OnOk result (text.new.items ≡ text.old.items ++ codes "input " ++ code.now ++ codes " " ++ decimal number) }
{
    push_pair(text, "input ", code)?;
    push_after(text, number)
}

impl Code {
    /// Appends the line without its end.
    fn push_words(self, text: &mut Vec<u8>) -> Result<(), NoMemory>
        ensures { OnOk result (text.new.items ++ newline ≡ text.old.items ++ code_line self) }
    {
        match self {
            Code::Bare(code) => push_pair(text, "input ", code),
            Code::At(code, span) => push_at(text, code, span),
            Code::Line(code, line) => push_numbered(text, code, line),
            Code::Limit(code) => push_pair(text, "limit ", code),
            Code::Memory => push_bytes(text, b"memory"),
        }
    }

    /// Appends the line.
    pub fn push(self, text: &mut Vec<u8>) -> Result<(), NoMemory>
        ensures { OnOk result (text.new.items ≡ text.old.items ++ code_line self) }
    {
        self.push_words(text)?;
        push_bytes(text, b"\n")
    }

    /// The status of the program.
    pub fn status(self) -> u8
        ensures { result ≡ code_status self }
    {
        match self {
            Code::Bare(_) | Code::At(_, _) | Code::Line(_, _) => 3,
            Code::Limit(_) => 4,
            Code::Memory => 7,
        }
    }

    /// The span of the text that the code names, where it names one.
    pub fn span(self) -> Option<Span>
        ensures { result ≡ code_span self }
    {
        match self {
            Code::At(_, span) => Some(span),
            _ => None,
        }
    }
}
