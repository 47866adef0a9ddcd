//! What is told to a person of a text that can't be read, or that is refused, and of the scope in which a dump is read. Of want of memory
//! nothing is told.
ghost use Rattle.std.specs.Prelude.{◌≡◌};
ghost use Rattle.vcd_traces.specs.Ports.{HasPorts};
ghost use Rattle.refusal.specs.Codes.{code_status};
ghost use Rattle.load_texts.specs.Dumps.{dump_status};

use crate::loads::Source;
use crate::scopes::scope_path;
use front_end::Format;
use io_ports::FaultKind;
use loc_base::Span;
use refusal::{Code, Note, Notes, Refusal};
use requests::Sources;
use std::alloc::Global;
use std::str;
use thiserror::Error;
use vcd_traces::VcdErr;

/// Tells that the text under a name can't be read.
pub(crate) fn tell_unread<N: Notes>(name: &str, cause: FaultKind, notes: &mut N) {
    notes.note(&Note::Unread { name, cause });
}

/// Tells that the text under a name is refused.
fn tell_refused<N: Notes>(name: &str, text: &[u8], refusal: &Refusal, notes: &mut N) {
    if !matches!(refusal.code, Code::Memory) {
        notes.note(&Note::Refused {
            name,
            text,
            refusal,
        });
    }
}

/// What is told of a design that is refused. A span of an and-inverter graph counts lines, and the text is told by the first of them.
fn told(format: Format, refusal: &Refusal) -> Refusal {
    match (format, refusal.code) {
        (Format::Aiger, Code::At(code, lines)) => {
            Refusal::of(Code::Line(code, u64::from(lines.from)), refusal)
        }
        _ => *refusal,
    }
}

/// Tells that the design's text is refused.
pub(crate) fn tell_design<N: Notes>(
    sources: &Sources<'_>,
    text: &[u8],
    refusal: &Refusal,
    notes: &mut N,
) {
    let name = sources.texts.design.as_str();
    tell_refused(name, text, &told(sources.texts.format, refusal), notes);
}

/// The code of a word that has no place in a dump, at an offset.
fn word_code(offset: usize) -> Code
    ensures { code_status result ≡ 3 }
{
    match u32::try_from(offset) {
        Ok(at) => Code::At("T1", Span { from: at, to: at }),
        Err(_) => Code::Bare("T1"),
    }
}

/// The code of a dump that holds no trace. The line that ends a run has the number of the trace and its port besides.
fn dump_code(fault: VcdErr) -> Code
    ensures { code_status result ≡ dump_status fault }
{
    match fault {
        VcdErr::Syntax { offset } => word_code(offset),
        VcdErr::MissingPort => Code::Bare("T2"),
        VcdErr::PortWidth { port: _ } => Code::Bare("T3"),
        VcdErr::NoCycle => Code::Bare("T4"),
        VcdErr::UnknownInput { cycle: _, port: _ } => Code::Bare("T5"),
        VcdErr::Cycles => Code::Limit("Z3"),
        VcdErr::NoMemory => Code::Memory,
    }
}

/// Why a dump has no scope in which it could be read, where the scope's path is named.
#[derive(Clone, Copy, Debug, Error)]
#[error("no scope has that path, or the first that has it lacks a port of the top")]
struct NoScope;

/// What is told of a dump that holds no trace.
fn dump_refusal(source: &Source<'_>, fault: VcdErr) -> Refusal {
    let code = dump_code(fault);
    match fault {
        VcdErr::MissingPort if source.by.scope.is_some() => Refusal::of(code, &NoScope),
        _ => Refusal::of(code, &fault),
    }
}

/// Tells that a dump holds no trace.
pub(crate) fn tell_dump<N: Notes>(source: &Source<'_>, text: &[u8], fault: VcdErr, notes: &mut N) {
    tell_refused(source.name, text, &dump_refusal(source, fault), notes);
}

/// Tells the scope of a dump in which the ports are read, if there is one.
pub(crate) fn tell_scope<N: Notes>(alloc: Global, source: &Source<'_>, text: &[u8], notes: &mut N)
    requires { HasPorts source.now.by.design.now }
{
    let Ok(Some(shown)) = scope_path(alloc, text, &source.by) else {
        return;
    };
    let Ok(trace) = u32::try_from(source.place.saturating_add(1)) else {
        return;
    };
    if let Ok(path) = str::from_utf8(shown.as_slice()) {
        notes.note(&Note::Scope { trace, path });
    }
}
