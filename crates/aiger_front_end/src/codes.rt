//! The codes of what is refused.
ghost use Rattle.std.specs.Prelude.{◌≡◌};
ghost use Rattle.refusal.specs.Codes.{code_line, code_status};
ghost use Rattle.aiger_front_end.specs.Errors.{text_line, text_status, graph_line, graph_status};

use crate::error::GraphErr;
use aiger_design::AigerErr;
use refusal::Code;

/// A text that breaks a rule of the format.
fn text_code(fault: AigerErr) -> Code
    ensures line { code_line result ≡ text_line fault }
    ensures status { code_status result ≡ text_status fault }
{
    match fault {
        AigerErr::TooLong => Code::Limit("L9"),
        AigerErr::Header => Code::Line("A1", 1),
        AigerErr::Shape(line) => Code::Line("A2", line),
        AigerErr::Literal(line) => Code::Line("A3", line),
        AigerErr::Naming(line) => Code::Line("A4", line),
        AigerErr::Places => Code::Limit("Z1"),
        AigerErr::NoMemory => Code::Memory,
    }
}

/// A text that means no design.
pub(crate) fn graph_code(fault: GraphErr) -> Code
    ensures line { code_line result ≡ graph_line fault }
    ensures status { code_status result ≡ graph_status fault }
{
    match fault {
        GraphErr::Text(fault) => text_code(fault),
        GraphErr::Circle(span) => Code::At("S4", span),
    }
}
