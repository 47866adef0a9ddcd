//! Random networks of gates of two inputs. The nets `n0`, `n1` and `n2` are inputs, then each gate drives one; `n6` and `n7` are outputs.

use std::alloc::Global;
use std::test::Fail;

/// How many gates there are.
const GATES: u32 = 5;

/// What stands in front of the assignments, four lines.
const HEAD: &str =
    "module m(input n0, input n1, input n2, output n6, output n7);\nwire n3;\nwire n4;\nwire n5;\n";

/// A linear congruential generator.
#[derive(Drop)]
pub(super) struct Numbers {
    pub(super) state: u32,
}

impl Numbers {
    /// A number below another; 0 where there is none.
    pub(super) fn below(&mut self, bound: u32) -> u32 {
        self.state = self
            .state
            .wrapping_mul(1_664_525)
            .wrapping_add(1_013_904_223);
        (self.state >> 16).checked_rem(bound).unwrap_or(0)
    }
}

/// An operator: what stands before, between and behind its operands, and its values by theirs, that for both 0 lowest.
type Operator = (&'static str, &'static str, &'static str, u32);

const AND: Operator = ("", "&", "", 0b1000);

const OPERATORS: [Operator; 6] = [
    AND,
    ("", "|", "", 0b1110),
    ("", "^", "", 0b0110),
    ("~(", "&", ")", 0b0111),
    ("~(", "|", ")", 0b0001),
    ("~(", "^", ")", 0b1001),
];

/// An operator, and the numbers of the two nets that it takes.
#[derive(Clone, Copy)]
pub(super) struct Gate {
    operator: Operator,
    left: u32,
    right: u32,
}

fn operator(numbers: &mut Numbers) -> Operator {
    match OPERATORS.get(numbers.below(6) as usize) {
        Some(operator) => *operator,
        None => AND,
    }
}

/// Gates over the inputs and the nets of the gates before them.
pub(super) fn gates(alloc: Global, numbers: &mut Numbers) -> Result<Vec<Gate>, Fail> {
    let mut gates = Vec::new(alloc);
    for nets in 3..8u32 {
        gates.push(Gate {
            operator: operator(numbers),
            left: numbers.below(nets),
            right: numbers.below(nets),
        })?;
    }
    Ok(gates)
}

/// The same gates, with other operators at some two of them.
pub(super) fn changed(
    alloc: Global,
    gates: &[Gate],
    numbers: &mut Numbers,
) -> Result<Vec<Gate>, Fail> {
    let one = numbers.below(GATES);
    let other = numbers.below(GATES);
    let mut changed = Vec::new(alloc);
    for (number, gate) in gates.iter().enumerate() {
        let mut new = *gate;
        if number == one as usize || number == other as usize {
            new.operator = operator(numbers);
        }
        changed.push(new)?;
    }
    Ok(changed)
}

/// The text of the gates, one assignment a line.
pub(super) fn text(alloc: Global, gates: &[Gate]) -> Result<String, Fail> {
    let mut text = String::from_str(alloc, HEAD)?;
    let mut net = 3u32;
    for gate in gates {
        let (begins, between, ends, _values) = gate.operator;
        let (left, right) = (gate.left, gate.right);
        let line = format!(in alloc;
            "assign n{net} = {begins}n{left} {between} n{right}{ends};\n"
        )?;
        text.push_str(line.as_str())?;
        net = net.wrapping_add(1);
    }
    text.push_str("endmodule\n")?;
    Ok(text)
}

/// The values of the nets, that of `n0` lowest, by those of the inputs.
fn values(gates: &[Gate], inputs: u32) -> u32 {
    let mut values = inputs;
    let mut net = 3u32;
    for gate in gates {
        let left = values.wrapping_shr(gate.left) & 1;
        let right = values.wrapping_shr(gate.right) & 1;
        let (_begins, _between, _ends, table) = gate.operator;
        let value = table.wrapping_shr(left.wrapping_add(right.wrapping_mul(2))) & 1;
        values |= value.wrapping_shl(net);
        net = net.wrapping_add(1);
    }
    values
}

/// A cycle of the gates: the digits of the inputs and of the two outputs.
pub(super) fn cycle(alloc: Global, gates: &[Gate], inputs: u32) -> Result<String, Fail> {
    let values = values(gates, inputs);
    let mut row = String::new(alloc);
    for net in [0u32, 1, 2, 6, 7] {
        row.push_str(if (values >> net) & 1 == 1 { "1" } else { "0" })?;
    }
    Ok(row)
}
