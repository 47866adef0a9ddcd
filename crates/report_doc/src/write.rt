ghost use Rattle.std.specs.Prelude.{◌≡◌, ◌<◌, ◌*◌, [], length, slice_index_or, string_bytes, All, IfOk, IfSome, OnOk, IsAscii};
ghost use Rattle.hex.specs.Hex.{encode_lower, IsBytes};
ghost use Rattle.serde_json.specs.Data.{string};
ghost use Rattle.serde_json.specs.Events.{SendsValue};
ghost use Rattle.serde_json.specs.Written.{compact_text};
ghost use Rattle.loc_base.specs.Name.{IsName};
ghost use Rattle.report_doc.specs.Document.{clock_text, ending_text, report_data, set_data, suspect_data, text_of, trace_data};
ghost use Rattle.report_doc.specs.Json.{IsJsonOf, list_data, number_data};
ghost use Rattle.report_doc.specs.Shape.{CanBeWritten, IsDigest, IsReport, IsSuspect, IsWord};
ghost use Rattle.report_doc.specs.Sending.{AreAscii, HasParts, SendsEnd, SendsEnding, SendsFound, SendsInputs};
ghost use Rattle.report_doc.specs.declared.types.Report.{Report as SpecReport};

use crate::cycle_texts::CycleTexts;
use crate::types::{Ending, Report, ReportSet, ReportSuspect};
use hex::encode_to_slice;
use loc_base::{Bytes, Digest, Items, Name, NoMemory};
use printed_text::push_bytes;
use serde::{Described, Serialize, Serializer};
use std::alloc::Global;

/// The text of bytes that are ASCII.
#[tactic(auto, using(crate::proofs::Ascii::ascii))]
fn text_of_bytes(bytes: &[u8]) -> &str
    requires { IsAscii bytes.now }
    ensures { result.now ≡ bytes.now }
{
    match std::str::from_utf8(bytes) {
        Ok(text) => text,
        Err(_) => unreachable!(),
    }
}

/// The bytes of a name.
#[tactic(auto, using(crate::proofs::Ascii::ascii))]
fn text_of_name(name: &Name) -> &str
    ensures text { result.now ≡ name.now }
    ensures name { IsName name.now }
{
    text_of_bytes(name.as_bytes())
}

fn send_name<S: Serializer>(out: &mut S, name: &Name) -> Result<(), S::Error>
    ensures sends { OnOk result (SendsValue (string name.now) (S.written out.old) (S.written out.new)) }
    ensures name { IsName name.now }
{
    out.str(text_of_name(name))
}

fn send_clock<S: Serializer>(out: &mut S, clock: &Option<Name>) -> Result<(), S::Error>
    ensures sends { OnOk result (SendsValue (string (clock_text clock.now)) (S.written out.old) (S.written out.new)) }
    ensures name { IfSome clock.now IsName }
{
    match clock {
        Some(name) => send_name(out, name),
        None => out.str(""),
    }
}

fn word_of(ending: Ending) -> &'static str
    ensures { result.now ≡ ending_text ending }
{
    match ending {
        Ending::Complete => "complete",
        Ending::Budget => "budget",
        Ending::Sets => "sets",
        Ending::Earlier => "earlier",
    }
}

/// The bytes in lower-case hex digits.
fn spell(bytes: &[u8], digits: &mut [u8])
    requires { length digits.old ≡ 2 * length bytes.now }
    ensures digits { digits.new ≡ encode_lower bytes.now }
    ensures bytes { IsBytes bytes.now }
{
    if encode_to_slice(bytes, digits).is_err() {
        unreachable!()
    }
}

#[tactic(auto, using(crate::proofs::Ascii::ascii))]
fn send_digest<S: Serializer>(out: &mut S, digest: &Digest) -> Result<(), S::Error>
    ensures sends { OnOk result (SendsValue (string (encode_lower digest.now.bytes)) (S.written out.old) (S.written out.new)) }
    ensures digest { IsDigest digest.now }
{
    let mut digits = [0u8; 64];
    spell(digest.bytes.as_slice(), &mut digits);
    out.str(text_of_bytes(digits.as_slice()))
}

fn send_names<S: Serializer>(out: &mut S, names: &[Name]) -> Result<(), S::Error>
    ensures sends { OnOk result (SendsValue (list_data string names.now) (S.written out.old) (S.written out.new)) }
    ensures names { OnOk result (All IsName names.now) }
{
    out.begin_seq(Some(names.len()))?;
    for name in names {
        send_name(out, name)?;
    }
    out.end_seq()
}

fn send_number<S: Serializer>(out: &mut S, number: u32) -> Result<(), S::Error>
    ensures { OnOk result (SendsValue (number_data number) (S.written out.old) (S.written out.new)) }
{
    out.u64(u64::from(number))
}

fn send_numbers<S: Serializer>(out: &mut S, numbers: &[u32]) -> Result<(), S::Error>
    ensures sends { OnOk result (SendsValue (list_data number_data numbers.now) (S.written out.old) (S.written out.new)) }
    ensures words { OnOk result (All IsWord numbers.now) }
{
    out.begin_seq(Some(numbers.len()))?;
    for number in numbers {
        send_number(out, *number)?;
    }
    out.end_seq()
}

#[tactic(auto, using(crate::proofs::Ascii::ascii))]
fn send_text<S: Serializer>(out: &mut S, text: &[u8]) -> Result<(), S::Error>
    requires { IsAscii text.now }
    ensures { OnOk result (SendsValue (string text.now) (S.written out.old) (S.written out.new)) }
{
    out.str(text_of_bytes(text))
}

fn send_cycle<S: Serializer>(out: &mut S, cycles: &CycleTexts, cycle: usize) -> Result<(), S::Error>
    requires cycle { cycle < length cycles.now }
    requires texts { All IsAscii (slice_index_or cycles.now cycle []) }
    ensures { OnOk result (SendsValue (list_data string (slice_index_or cycles.now cycle [])) (S.written out.old) (S.written out.new)) }
{
    out.begin_seq(Some(cycles.count(cycle)))?;
    for place in 0..cycles.count(cycle) {
        send_text(out, cycles.text(cycle, place))?;
    }
    out.end_seq()
}

fn send_trace<S: Serializer>(out: &mut S, cycles: &CycleTexts) -> Result<(), S::Error>
    requires { All (All IsAscii) cycles.now }
    ensures { OnOk result (SendsValue (trace_data cycles.now) (S.written out.old) (S.written out.new)) }
{
    out.begin_seq(Some(cycles.len()))?;
    for cycle in 0..cycles.len() {
        send_cycle(out, cycles, cycle)?;
    }
    out.end_seq()
}

fn send_traces<S: Serializer>(out: &mut S, traces: &[CycleTexts]) -> Result<(), S::Error>
    requires { All (All (All IsAscii)) traces.now }
    ensures { OnOk result (SendsValue (list_data trace_data traces.now) (S.written out.old) (S.written out.new)) }
{
    out.begin_seq(Some(traces.len()))?;
    for trace in traces {
        send_trace(out, trace)?;
    }
    out.end_seq()
}

fn send_set<S: Serializer>(out: &mut S, set: &ReportSet) -> Result<(), S::Error>
    requires { All (All (All IsAscii)) set.now.values }
    ensures sends { OnOk result (SendsValue (set_data set.now) (S.written out.old) (S.written out.new)) }
    ensures members { OnOk result (All IsWord set.now.members) }
{
    out.begin_map(Some(2))?;
    out.key("members")?;
    send_numbers(out, set.members.as_slice())?;
    out.key("values")?;
    send_traces(out, set.values.as_slice())?;
    out.end_map()
}

fn send_sets<S: Serializer>(out: &mut S, sets: &[ReportSet]) -> Result<(), S::Error>
    requires { All AreAscii sets.now }
    ensures sends { OnOk result (SendsValue (list_data set_data sets.now) (S.written out.old) (S.written out.new)) }
    ensures members { OnOk result (All (λ set. All IsWord set.members) sets.now) }
{
    out.begin_seq(Some(sets.len()))?;
    for set in sets {
        send_set(out, set)?;
    }
    out.end_seq()
}

fn send_suspect<S: Serializer>(out: &mut S, suspect: &ReportSuspect) -> Result<(), S::Error>
    ensures sends { OnOk result (SendsValue (suspect_data suspect.now) (S.written out.old) (S.written out.new)) }
    ensures suspect { OnOk result (IsSuspect suspect.now) }
{
    out.begin_map(Some(3))?;
    out.key("kind")?;
    send_name(out, &suspect.kind)?;
    out.key("label")?;
    send_name(out, &suspect.label)?;
    out.key("line")?;
    send_number(out, suspect.line)?;
    out.end_map()
}

fn send_suspects<S: Serializer>(out: &mut S, suspects: &[ReportSuspect]) -> Result<(), S::Error>
    ensures sends { OnOk result (SendsValue (list_data suspect_data suspects.now) (S.written out.old) (S.written out.new)) }
    ensures suspects { OnOk result (All IsSuspect suspects.now) }
{
    out.begin_seq(Some(suspects.len()))?;
    for suspect in suspects {
        send_suspect(out, suspect)?;
    }
    out.end_seq()
}

/// The clock and the ending.
fn send_ending<S: Serializer>(out: &mut S, r: &Report) -> Result<(), S::Error>
    ensures sends { OnOk result (SendsEnding r.now (S.written out.old) (S.written out.new)) }
    ensures clock { OnOk result (IfSome r.now.clock IsName) }
{
    out.key("clock")?;
    send_clock(out, &r.clock)?;
    out.key("ending")?;
    out.str(word_of(r.ending))
}

/// The inputs and the kinds.
fn send_inputs<S: Serializer>(out: &mut S, r: &Report) -> Result<(), S::Error>
    ensures sends { OnOk result (SendsInputs r.now (S.written out.old) (S.written out.new)) }
    ensures inputs { OnOk result (IsDigest r.now.inputs) }
    ensures kinds { OnOk result (All IsName r.now.kinds) }
{
    out.key("inputs")?;
    send_digest(out, &r.inputs)?;
    out.key("kinds")?;
    send_names(out, r.kinds.as_slice())
}

/// The sets and their size.
fn send_found<S: Serializer>(out: &mut S, r: &Report) -> Result<(), S::Error>
    requires { All AreAscii r.now.sets }
    ensures sends { OnOk result (SendsFound r.now (S.written out.old) (S.written out.new)) }
    ensures members { OnOk result (All (λ set. All IsWord set.members) r.now.sets) }
{
    out.key("sets")?;
    send_sets(out, r.sets.as_slice())?;
    out.key("size")?;
    send_number(out, r.size)
}

/// The suspects, the top and the version.
fn send_end<S: Serializer>(out: &mut S, r: &Report) -> Result<(), S::Error>
    ensures sends { OnOk result (SendsEnd r.now (S.written out.old) (S.written out.new)) }
    ensures suspects { OnOk result (All IsSuspect r.now.suspects) }
    ensures top { OnOk result (IsName r.now.top) }
{
    out.key("suspects")?;
    send_suspects(out, r.suspects.as_slice())?;
    out.key("top")?;
    send_name(out, &r.top)?;
    out.key("version")?;
    send_number(out, 1)
}

fn send_report<S: Serializer>(out: &mut S, r: &Report) -> Result<(), S::Error>
    requires { All AreAscii r.now.sets }
    ensures sends { OnOk result (SendsValue (report_data r.now) (S.written out.old) (S.written out.new)) }
    ensures parts { OnOk result (HasParts r.now) }
{
    out.begin_map(Some(9))?;
    send_ending(out, r)?;
    send_inputs(out, r)?;
    send_found(out, r)?;
    send_end(out, r)?;
    out.end_map()
}

/// A report whose values are texts, as `serde` takes it.
#[derive(Clone, Copy)]
struct Document<'r> {
    report: &'r Report,
    ghost texts: { All AreAscii report.now.sets },
}

impl Described for Document<'_> {
    ghost writes = { λ document old new. SendsValue (report_data document.report.now) old new × HasParts document.report.now };
}

impl Serialize for Document<'_> {
    fn serialize<S: Serializer>(&self, out: &mut S) -> Result<(), S::Error> {
        send_report(out, self.report)
    }
}

/// The JSON of a report.
#[tactic(auto, using(crate::proofs::Ascii::ascii))]
fn json_of(alloc: Global, r: &Report) -> Result<String, NoMemory>
    requires { CanBeWritten r.now }
    ensures json { IfOk result (λ json. string_bytes json ≡ compact_text (report_data r.now)) }
    ensures report { OnOk result (IsReport r.now) }
{
    match serde_json::to_string(alloc, &Document { report: r }) {
        Ok(json) => Ok(json),
        Err(_) => Err(NoMemory),
    }
}

/// The text of a report. It is JSON with the value of this report, and of no other.
pub fn report_text(alloc: Global, r: &Report) -> Result<Bytes, NoMemory>
    requires { CanBeWritten r.now }
    ensures text { IfOk result (λ text. text ≡ text_of r.now) }
    ensures report { OnOk result (IsReport r.now) }
    ensures json { IfOk result (λ text. IsJsonOf (report_data r.now) text) }
    ensures reads_back { IfOk result (λ text. (other : SpecReport) → IsReport other → IsJsonOf (report_data other) text → other ≡ r.now) }
{
    let mut text = json_of(alloc, r)?.into_bytes();
    push_bytes(&mut text, b"\n")?;
    Ok(Items::from_vec(text))
}
