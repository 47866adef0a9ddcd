//! The terminals of a gate: outputs, then inputs (IEEE 1364-2005, 7.1 to 7.3).
ghost use Rattle.std.specs.Prelude.{◌≡◌, ◌-◌, if◌then◌else◌, min, map, Ok, Err, OnOk, IfErr};
ghost use Rattle.v_syntax.specs.Tree.{tree_of};
ghost use Rattle.v_syntax.specs.ItemTree.{gate_of};
ghost use Rattle.v_binding.specs.Gates.{last_alone, outputs_of, inputs_of, terminals_fit};

use v_binding::BindErr;
use v_syntax::{Expr, GateInstance, GateKind};

/// Whether the last terminal alone is an input, and not all but the first.
fn last_alone(kind: GateKind) -> bool
    ensures { result ≡ last_alone kind }
{
    match kind {
        GateKind::Buf | GateKind::Not => true,
        GateKind::And
        | GateKind::Or
        | GateKind::Nand
        | GateKind::Nor
        | GateKind::Xor
        | GateKind::Xnor => false,
    }
}

/// How many of so many terminals are outputs.
fn output_count(kind: GateKind, terminals: usize) -> usize
    ensures { result ≡ (if last_alone kind then terminals - 1 else min 1 terminals) }
{
    if last_alone(kind) {
        terminals.saturating_sub(1)
    } else {
        terminals.min(1)
    }
}

/// The outputs.
#[tactic(auto, using(crate::proofs::TerminalSteps::terminal_steps))]
pub fn outputs_of(kind: GateKind, terminals: &[Expr]) -> &[Expr]
    ensures { map tree_of result.now ≡ outputs_of kind (map tree_of terminals.now) }
{
    &terminals[..output_count(kind, terminals.len())]
}

/// The inputs.
#[tactic(auto, using(crate::proofs::TerminalSteps::terminal_steps))]
pub fn inputs_of(kind: GateKind, terminals: &[Expr]) -> &[Expr]
    ensures { map tree_of result.now ≡ inputs_of kind (map tree_of terminals.now) }
{
    &terminals[output_count(kind, terminals.len())..]
}

/// Whether a gate has at least two terminals, and at most 4,096 inputs.
pub fn terminals_fit(kind: GateKind, gate: &GateInstance) -> Result<(), BindErr>
    ensures ok { OnOk result (terminals_fit kind (gate_of gate.now) ≡ Ok tt) }
    ensures err { IfErr result (λ e. terminals_fit kind (gate_of gate.now) ≡ Err e) }
{
    let terminals = gate.terminals.as_slice();
    let inputs = inputs_of(kind, terminals);
    if terminals.len() < 2 || 4096 < inputs.len() {
        return Err(BindErr::PortName(gate.site.span));
    }
    Ok(())
}
