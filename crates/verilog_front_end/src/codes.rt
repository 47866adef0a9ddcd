//! The codes of what the steps between a text and a design refuse.
ghost use Rattle.std.specs.Prelude.{◌≡◌};
ghost use Rattle.refusal.specs.Codes.{code_line, code_status};
ghost use Rattle.verilog_front_end.specs.Errors.{lexical_line, lexical_status, syntax_line, syntax_status, elaboration_line, elaboration_status, binding_line, binding_status, design_err_line, design_status};

use crate::error::DesignErr;
use refusal::Code;
use v_binding::BindErr;
use v_hierarchy::ElabErr;
use v_lexer::types::LexErr;
use v_tree::ParseErr;

/// A text that has no tokens.
fn lexical_code(fault: LexErr) -> Code
    ensures line { code_line result ≡ lexical_line fault }
    ensures status { code_status result ≡ lexical_status fault }
{
    match fault {
        LexErr::BadByte(span) => Code::At("L1", span),
        LexErr::OpenComment(span) => Code::At("L2", span),
        LexErr::BadNumber(span) => Code::At("L3", span),
        LexErr::UnknownValue(span) => Code::At("L4", span),
        LexErr::WideNumber(span) => Code::At("L5", span),
        LexErr::Directive(span) => Code::At("L6", span),
        LexErr::OpenIf(span) => Code::At("L7", span),
        LexErr::MacroDepth(span) => Code::At("L8", span),
        LexErr::TooLong(_) => Code::Limit("L9"),
        LexErr::NoMemory => Code::Memory,
    }
}

/// Tokens that have no tree.
fn syntax_code(fault: ParseErr) -> Code
    ensures line { code_line result ≡ syntax_line fault }
    ensures status { code_status result ≡ syntax_status fault }
{
    match fault {
        ParseErr::Unexpected(span) => Code::At("P1", span),
        ParseErr::Unsupported(span) => Code::At("P2", span),
        ParseErr::Deep(span) => Code::At("P3", span),
        ParseErr::NoMemory => Code::Memory,
    }
}

/// A tree that has no instances.
fn elaboration_code(fault: ElabErr) -> Code
    ensures line { code_line result ≡ elaboration_line fault }
    ensures status { code_status result ≡ elaboration_status fault }
{
    match fault {
        ElabErr::UnknownName(span) => Code::At("E1", span),
        ElabErr::NotConstant(span) => Code::At("E2", span),
        ElabErr::ZeroDivisor(span) => Code::At("E3", span),
        ElabErr::Range(span) => Code::At("E4", span),
        ElabErr::NoTop => Code::Bare("E5"),
        ElabErr::UnknownModule(span) => Code::At("E6", span),
        ElabErr::DoubleName(span) => Code::At("E7", span),
        ElabErr::PortName(span) => Code::At("E8", span),
        ElabErr::Depth(span) => Code::At("E9", span),
        ElabErr::Turns(_) => Code::Limit("E10"),
        ElabErr::Parameter(span) => Code::At("E11", span),
        ElabErr::NoMemory => Code::Memory,
    }
}

/// Instances that mean no design.
fn binding_code(fault: BindErr) -> Code
    ensures line { code_line result ≡ binding_line fault }
    ensures status { code_status result ≡ binding_status fault }
{
    match fault {
        BindErr::UnknownName(span) => Code::At("E1", span),
        BindErr::NotConstant(span) => Code::At("E2", span),
        BindErr::ZeroDivisor(span) => Code::At("E3", span),
        BindErr::Range(span) => Code::At("E4", span),
        BindErr::PortName(span) => Code::At("E8", span),
        BindErr::Places => Code::Limit("Z1"),
        BindErr::MultiDriver(span) => Code::At("S1", span),
        BindErr::Undriven(span) => Code::At("S2", span),
        BindErr::Latch(span) => Code::At("S3", span),
        BindErr::Clock(span) => Code::At("S5", span),
        BindErr::MixedAssign(span) => Code::At("S6", span),
        BindErr::RaceRead(span) => Code::At("S7", span),
        BindErr::NoMemory => Code::Memory,
    }
}

/// A text that means no design.
pub(crate) fn design_code(fault: DesignErr) -> Code
    ensures line { code_line result ≡ design_err_line fault }
    ensures status { code_status result ≡ design_status fault }
{
    match fault {
        DesignErr::Lexical(fault) => lexical_code(fault),
        DesignErr::Syntax(fault) => syntax_code(fault),
        DesignErr::Elaboration(fault) => elaboration_code(fault),
        DesignErr::Binding(fault) => binding_code(fault),
        DesignErr::Circle(span) => Code::At("S4", span),
        DesignErr::NoMemory => Code::Memory,
    }
}
