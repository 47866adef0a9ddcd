//! From the texts to the form, with the time that each step takes.
ghost use Rattle.std.specs.Prelude.{IfOk};
ghost use Rattle.front_end.specs.Means.{IsReady};

use crate::failure::Failure;
use crate::form::request::Request;
use bit_circuit::{Circuit, blast};
use clause_base::Form;
use clause_form::form;
use design_core::{Design, Trace};
use front_end::{Format, FrontEnd, Ordered, ReadBy};
use io_ports::{FileShelf, Shelf};
use std::alloc::Global;
use std::time::Instant;
use suspect_map::{
    Blocks, Gates, Granularity, Groups, InstanceOutputs, Modules, Statements, chosen,
};
use unroller::{are_traces, unroll};
use v_synth::word_net;
use vcd_traces::{SampleBy, has_ports, samples};
use verilog_front_end::Verilog;

/// The most bytes of a text.
const MOST_BYTES: u64 = 1_073_741_824;

/// What a form is made of.
pub struct Parts {
    pub ordered: Ordered,
    pub groups: Groups,
    pub traces: Vec<Trace>,
}

impl Drop for Parts {
    fn drop(self) {
        let Parts {
            ordered: _,
            groups: _,
            traces: _,
        } = self;
    }
}

/// The suspects of a design, of the five kinds of Verilog texts.
fn groups_of(alloc: Global, request: &Request, design: &Design) -> Result<Groups, Failure> {
    if design.places.len() > 65_536 {
        return Err(Failure::Large);
    }
    let mut kinds: Vec<Box<dyn Granularity>> = Vec::new(alloc);
    kinds.push(Box::new(alloc, Statements)?)?;
    kinds.push(Box::new(alloc, Blocks)?)?;
    kinds.push(Box::new(alloc, Gates)?)?;
    kinds.push(Box::new(alloc, InstanceOutputs)?)?;
    kinds.push(Box::new(alloc, Modules)?)?;
    Ok(chosen(
        alloc,
        kinds.as_slice(),
        request.kinds.as_slice(),
        design.places.as_slice(),
    )?)
}

/// The traces of the dumps.
fn traces_of<'a>(
    rt: &HostRuntime,
    request: &'a Request,
    design: &'a Design,
) -> Result<Vec<Trace>, Failure> {
    let alloc = rt.alloc();
    let mut shelf = FileShelf::new(rt, alloc);
    let mut traces = Vec::new(alloc);
    if !has_ports(design) {
        return Err(Failure::Large);
    }
    let by = SampleBy {
        design,
        clock: request.clock.as_ref(),
        scope: None,
        zero_inputs: false,
    };
    for name in &request.traces {
        let text = shelf.load(alloc, name.as_str(), MOST_BYTES)?;
        traces.push(samples(alloc, text.as_slice(), &by)?)?;
    }
    Ok(traces)
}

/// The design, the suspects and the traces of the texts.
pub fn read_parts(rt: &HostRuntime, request: &Request) -> Result<Parts, Failure>
    ensures { IfOk result (λ parts. IsReady parts.ordered.design parts.ordered.order) }
{
    let alloc = rt.alloc();
    let text = FileShelf::new(rt, alloc).load(alloc, request.design.as_str(), MOST_BYTES)?;
    let by = ReadBy {
        format: Format::Verilog,
        top: &request.top,
        clock: request.clock.as_ref(),
    };
    let ordered = Verilog.read(alloc, text.as_slice(), &by)?;
    let groups = groups_of(alloc, request, &ordered.design)?;
    let traces = traces_of(rt, request, &ordered.design)?;
    Ok(Parts {
        ordered,
        groups,
        traces,
    })
}

/// The circuit of a design.
fn circuit(alloc: Global, ordered: &Ordered) -> Result<Circuit, Failure>
    requires { IsReady ordered.now.design ordered.now.order }
{
    if ordered.design.signals.len() > 1_048_576 {
        return Err(Failure::Large);
    }
    let net = word_net(alloc, &ordered.design, &ordered.order)?;
    Ok(blast(alloc, &net)?)
}

/// A form, and the milliseconds that the circuit, the unrolling and the clauses took.
pub struct Made {
    pub form: Form,
    pub nodes: usize,
    pub times: [u128; 3],
}

impl Drop for Made {
    fn drop(self) {
        let Made {
            form: _,
            nodes: _,
            times: _,
        } = self;
    }
}

/// The form of the parts.
pub fn form_of(rt: &HostRuntime, parts: &Parts, size: u32) -> Result<Made, Failure>
    requires { IsReady parts.now.ordered.design parts.now.ordered.order }
{
    let alloc = rt.alloc();
    let begin = Instant::now(rt)?;
    let circuit = circuit(alloc, &parts.ordered)?;
    let made = Instant::now(rt)?;
    if !are_traces(&circuit, parts.traces.as_slice()) {
        return Err(Failure::Large);
    }
    let checked = Instant::now(rt)?;
    let unrolled = unroll(
        alloc,
        &circuit,
        parts.traces.as_slice(),
        &parts.groups,
        size,
    )?;
    let middle = Instant::now(rt)?;
    let form = form(alloc, &unrolled, &parts.groups, size)?;
    let end = Instant::now(rt)?;
    Ok(Made {
        form,
        nodes: circuit.nodes().len(),
        times: [
            made.duration_since(begin).as_millis(),
            middle.duration_since(checked).as_millis(),
            end.duration_since(middle).as_millis(),
        ],
    })
}
