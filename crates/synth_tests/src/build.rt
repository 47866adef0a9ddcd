//! Designs of texts, their nets and their circuits.

ghost use Rattle.std.specs.Prelude.{IfOk};
ghost use Rattle.front_end.specs.Means.{IsReady};

use bit_circuit::{Circuit, blast};
use front_end::{Format, FrontEnd, Ordered, ReadBy};
use gate_base::{Literal, Node};
use loc_base::{Bits, Name};
use std::alloc::Global;
use std::test::Fail;
use v_synth::word_net;
use verilog_front_end::Verilog;
use word_net::WordNet;

pub(super) fn bits(width: u8, value: u128) -> Result<Bits, Fail> {
    match Bits::new(width, value) {
        Some(word) => Ok(word),
        None => Err(Fail::new("no such word")),
    }
}

fn name(alloc: Global, text: &str) -> Result<Name, Fail> {
    match Name::new(alloc, text.as_bytes())? {
        Some(name) => Ok(name),
        None => Err(Fail::new("no name")),
    }
}

/// The design of the module `m` of a text.
pub(super) fn read(alloc: Global, text: &str) -> Result<Ordered, Fail>
    ensures { IfOk result (λ o. IsReady o.design o.order) }
{
    let top = name(alloc, "m")?;
    let by = ReadBy {
        format: Format::Verilog,
        top: &top,
        clock: None,
    };
    match Verilog.read(alloc, text.as_bytes(), &by) {
        Ok(ready) => Ok(ready),
        Err(_) => Err(Fail::new("no design")),
    }
}

/// The design of the module `m` of a text, with the clock `clk`.
pub(super) fn read_clocked(alloc: Global, text: &str) -> Result<Ordered, Fail>
    ensures { IfOk result (λ o. IsReady o.design o.order) }
{
    let top = name(alloc, "m")?;
    let clk = name(alloc, "clk")?;
    let clock = Some(&clk);
    let by = ReadBy {
        format: Format::Verilog,
        top: &top,
        clock,
    };
    match Verilog.read(alloc, text.as_bytes(), &by) {
        Ok(ready) => Ok(ready),
        Err(_) => Err(Fail::new("no design")),
    }
}

/// The net of a design.
pub(super) fn net_of(alloc: Global, ready: &Ordered) -> Result<WordNet, Fail>
    requires { IsReady ready.now.design ready.now.order }
{
    if ready.design.signals.len() > 1_048_576 {
        return Err(Fail::new("too many signals"));
    }
    Ok(word_net(alloc, &ready.design, &ready.order)?)
}

/// The circuit of a design.
pub(super) fn circuit(alloc: Global, ready: &Ordered) -> Result<Circuit, Fail>
    requires { IsReady ready.now.design ready.now.order }
{
    let net = net_of(alloc, ready)?;
    match blast(alloc, &net) {
        Ok(circuit) => Ok(circuit),
        Err(_) => Err(Fail::new("no circuit")),
    }
}

pub(super) fn of(node: u32) -> Literal {
    Literal::Of {
        node,
        negated: false,
    }
}

pub(super) fn not(node: u32) -> Literal {
    Literal::Of {
        node,
        negated: true,
    }
}

pub(super) fn and(left: Literal, right: Literal) -> Node {
    Node::And { left, right }
}

pub(super) fn input(input: u32, bit: u8) -> Node {
    Node::Input { input, bit }
}

pub(super) fn state(state: u32, bit: u8) -> Node {
    Node::State { state, bit }
}

pub(super) fn free(place: u32, computed: Literal) -> Node {
    Node::Free {
        moment: 0,
        place,
        bit: 0,
        computed,
    }
}

/// Whether the literals of the only output are these.
pub(super) fn has_output(circuit: &Circuit, want: &[Literal]) -> bool {
    let outputs = circuit.outputs();
    outputs.len() == 1 && outputs.row(0) == want
}

/// Whether the literals of the only state in the next cycle are these.
pub(super) fn has_next(circuit: &Circuit, want: &[Literal]) -> bool {
    let next = circuit.next();
    next.len() == 1 && next.row(0) == want
}
