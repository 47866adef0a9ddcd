//! Left sides (IEEE 1364-2005, 6.1, 9.2.1 and 9.2.2).
ghost use Rattle.std.specs.Prelude.{◌≡◌, ◌≤◌, map, true, Ok, IfOk, IfErr};
ghost use Rattle.v_syntax.specs.PartTree.{left_of, lefts_of};
ghost use Rattle.v_binding.specs.Lefts.{nothing_named, beside, of_width, target, targets};
ghost use Rattle.bind_scopes.specs.Refuses.{Refuses};
ghost use Rattle.v_binding.specs.Seen.{names_in};

use crate::named_parts::name_target;
use loc_base::{Items, NoMemory, Span};
use std::alloc::Global;
use std::mem;
use v_binding::{BindErr, Left, Names};
use v_syntax::Left as WrittenLeft;

/// The left side of no parts. It takes no memory.
pub(crate) fn nothing_named(alloc: Global) -> Left
    ensures { result ≡ nothing_named }
{
    Left {
        parts: Items::new(alloc),
        width: 0,
        named: 0,
    }
}

/// One left side, and another to its right; a width above 128 counts as 129.
pub(crate) fn beside(alloc: Global, mut one: Left, mut other: Left) -> Result<Left, NoMemory>
    ensures { IfOk result (λ l. l ≡ beside one other) }
{
    let named = if one.parts.is_empty() {
        other.named
    } else {
        one.named
    };
    let width = u16::from(one.width) + u16::from(other.width);
    let mut parts = mem::replace(&mut one.parts, Items::new(alloc)).into_vec();
    let mut more = mem::replace(&mut other.parts, Items::new(alloc)).into_vec();
    parts.append(&mut more)?;
    Ok(Left {
        parts: Items::from_vec(parts),
        width: width.min(129) as u8,
        named,
    })
}

/// A concatenation, if it has 1 to 128 bits.
pub(crate) fn of_width(span: Span, left: Left) -> Result<Left, BindErr>
    ensures is { result ≡ of_width span left }
    ensures most { IfOk result (λ l. l.width ≤ 128) }
{
    if left.width == 0 || left.width > 128 {
        Err(BindErr::Range(span))
    } else {
        Ok(left)
    }
}

/// The left sides of a concatenation, from the left.
#[cycle(left_side)]
fn targets(names: &Names<'_>, lefts: &[WrittenLeft]) -> Result<Left, BindErr>
    ensures ok { IfOk result (λ l. targets (names_in names.now) (lefts_of (map left_of lefts.now)) nothing_named ≡ Ok l) }
    ensures err { IfErr result (λ fault. Refuses (targets (names_in names.now) (lefts_of (map left_of lefts.now)) nothing_named) fault) }
{
    let mut done = nothing_named(names.allocator());
    for left in lefts {
        let one = target(names, left)?;
        done = beside(names.allocator(), done, one)?;
    }
    Ok(done)
}

/// A left side: the parts of signals that it names, from the left.
#[cycle(left_side)]
#[tactic(auto, using(crate::proofs::LeftSteps::left_steps))]
pub fn target(names: &Names<'_>, left: &WrittenLeft) -> Result<Left, BindErr>
    ensures ok { IfOk result (λ l. target (names_in names.now) (left_of left.now) ≡ Ok l) }
    ensures err { IfErr result (λ fault. Refuses (target (names_in names.now) (left_of left.now)) fault) }
    ensures most { IfOk result (λ l. l.width ≤ 128) }
{
    match left {
        WrittenLeft::Name {
            site,
            name,
            selects,
        } => name_target(names, *site, name, selects),
        WrittenLeft::Concat { site, parts } => {
            let all = targets(names, parts)?;
            of_width(site.span, all)
        }
    }
}
