//! Inputs of gates (IEEE 1364-2005, 7.1): bit 0 of each, together.
ghost use Rattle.std.specs.Prelude.{◌≡◌, None, map, Ok, IfOk, IfErr};
ghost use Rattle.v_syntax.specs.Tree.{tree_of};
ghost use Rattle.v_binding.specs.Steps.{each};
ghost use Rattle.v_binding.specs.Gates.{input_at};
ghost use Rattle.v_binding.specs.Seen.{names_in};
ghost use Rattle.bind_scopes.specs.Refuses.{Refuses};

use crate::{joined, low_bit};
use bind_scopes::by_itself;
use design_core::Typed;
use v_binding::{BindErr, Names};
use v_syntax::{Expr, GateKind};

/// The bits of inputs together, from the left; nothing where there are none.
pub(crate) fn inputs_at(
    names: &Names<'_>,
    kind: GateKind,
    terminals: &[Expr],
) -> Result<Option<Typed>, BindErr>
    ensures ok { IfOk result (λ inputs. each (input_at (names_in names.now) kind) (map tree_of terminals.now) None ≡ Ok inputs) }
    ensures err { IfErr result (λ e. Refuses (each (input_at (names_in names.now) kind) (map tree_of terminals.now) None) e) }
{
    let alloc = names.allocator();
    let mut inputs = None;
    for e in terminals {
        let by_itself = by_itself(names, e)?;
        let bit = low_bit(alloc, e, by_itself)?;
        let more = joined(alloc, kind, inputs, bit)?;
        inputs = Some(more);
    }
    Ok(inputs)
}
