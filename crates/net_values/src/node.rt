ghost use Rattle.std.specs.Prelude.{◌≡◌, map};
ghost use Rattle.loc_base.specs.Bits.{width_of, value_of};
ghost use Rattle.word_net.specs.Fits.{NodeFits};
ghost use Rattle.word_net.specs.Given.{IsGiven, source_of};
ghost use Rattle.word_net.specs.Values.{operation_value};

use crate::arms::{
    Run, Stored, of_binary, of_blend, of_choice, of_is, of_pick, of_put, of_put_pick, of_unary,
    read,
};
use crate::cycle::{Cycle, nth};
use loc_base::Bits;
use plain_values::{repeated, resized};
use word_net::{Operation, WordNode};

/// The value of a node, where those of the nodes before it are known.
pub(crate) fn value(cycle: &Cycle, known: &[Bits], node: &WordNode) -> Bits
    requires fits { NodeFits (map width_of known.now) node.now }
    requires given { IsGiven (record { states = cycle.now.states.now; inputs = cycle.now.inputs.now; freed = cycle.now.freed.now; chosen = cycle.now.chosen.now }) node.now.width node.now.operation }
    ensures width { width_of result ≡ node.now.width }
    ensures value { value_of result ≡ operation_value
        (source_of (record { states = cycle.now.states.now; inputs = cycle.now.inputs.now; freed = cycle.now.freed.now; chosen = cycle.now.chosen.now }))
        (map value_of known.now) node.now.width node.now.operation }
{
    let width = node.width;
    match &node.operation {
        Operation::Const(word) => Bits::new(width, *word).unwrap(),
        Operation::Input(input) => nth(cycle.inputs, *input, width),
        Operation::State(state) => nth(cycle.states, *state, width),
        Operation::Free { place, computed } => {
            cycle.assigned(*place, read(known, *computed), width)
        }
        Operation::Unary { op, arg } => of_unary(known, *op, *arg),
        Operation::Binary { op, left, right } => of_binary(known, *op, *left, *right),
        Operation::Choose { cond, yes, no } => of_choice(known, *cond, *yes, *no),
        Operation::Join { high, low } => read(known, *high).join(read(known, *low)),
        Operation::Repeat { times, part } => repeated(*times, read(known, *part)),
        Operation::Resize(arg) => resized(read(known, *arg), arg.signed, width),
        Operation::Slice { word, from } => read(known, *word).part(*from, width),
        Operation::Pick { word, select } => of_pick(known, *word, select),
        Operation::Is { index, number } => of_is(known, *index, *number),
        Operation::Put {
            old,
            from,
            size,
            word,
            offset,
        } => {
            let run = Run {
                from: *from,
                size: *size,
            };
            let stored = Stored {
                word: *word,
                offset: *offset,
            };
            of_put(known, *old, run, stored)
        }
        Operation::PutPick {
            old,
            select,
            word,
            offset,
        } => {
            let stored = Stored {
                word: *word,
                offset: *offset,
            };
            of_put_pick(known, *old, select, stored)
        }
        Operation::Blend { mask, one, other } => of_blend(known, *mask, *one, *other),
    }
}
