//! The nodes of names with their selects (IEEE 1364-2005, 4.9 and 5.2).
ghost use Rattle.std.specs.Prelude.{◌≡◌, ◌≤◌, ◌+◌, ◌++◌, [], ◌∷◌, Bool, true, false, IfOk, OnOk, map};
ghost use Rattle.design_core.specs.declared.expression.Node.TheVariants as node;
ghost use Rattle.v_sizes.specs.Sizing.{chosen_width, is_none, known};
ghost use Rattle.v_sizes.specs.Selected.{bits_below, bits_within, start_within};
ghost use Rattle.v_sizes.specs.Sized.{zeros_before, signal_node, word_node, meaning_node, bit_select};
ghost use Rattle.v_selects.specs.Named.{chosen_in, select_in};
ghost use Rattle.v_selects.specs.Picked.{first_distance, picked_node, picked_word, HasSome, IsReadable};
ghost use Rattle.v_sizes.specs.Context.{IsMeaning};
ghost use Rattle.v_selects.specs.Taken.{taken};
ghost use Rattle.design_core.specs.Valuation.{word_at};
ghost use Rattle.v_sizes.specs.declared.meaning.Meaning.TheVariants as meaning;

use crate::closed::{Closed, Picked};
use crate::first::split_first;
use crate::node::{constant, sized};
use crate::part_select::offsets;
use crate::picked::typed_of;
use crate::places::{bits_below, bits_within, start_of, start_within, word_at};
use crate::selected::{Bounds, descends};
use crate::taken::known;
use design_core::{Node, Typed};
use loc_base::{Bits, Boxed, Items, NoMemory};
use std::alloc::Global;
use v_sizes::Meaning;

/// A signal with its range.
#[derive(Clone, Copy)]
pub(crate) struct Word {
    pub signal: u32,
    pub width: u8,
    pub bounds: Bounds,
}

/// A signal with its select: a slice where its place is known and within, else by its index.
#[tactic(auto, using(crate::proofs::Picking::starts))]
pub(crate) fn picked_node(alloc: Global, word: Word, one: Picked) -> Result<Node, NoMemory>
    ensures { IfOk result (λ n. n ≡ picked_node word.signal word.width word.bounds.left word.bounds.right one) }
{
    let part = one.as_part();
    let start = if one.has_known_base() {
        start_of(word.width, part.count, one.distance(word.bounds))
    } else {
        None
    };
    if let Some(from) = start {
        return Ok(Node::Slice {
            signal: word.signal,
            from,
            width: part.count,
        });
    }
    let offsets = offsets(alloc, descends(word.bounds), part)?;
    let index = Boxed::new(alloc, one.into_base())?;
    Ok(Node::Pick {
        signal: word.signal,
        index,
        offsets,
    })
}

/// An array with the width and the range of its words.
#[derive(Clone, Copy)]
pub(crate) struct Words {
    pub first: u32,
    pub count: u32,
    pub low: i32,
    pub width: u8,
    pub bounds: Bounds,
}

/// Zeros at the end of a list of parts, where there are any.
fn push_zeros(parts: &mut Items<Typed>, count: u8) -> Result<(), NoMemory>
    requires { count ≤ 128 }
    ensures { OnOk result (parts.new ≡ parts.old ++ zeros_before count []) }
{
    if count > 0 {
        parts.push(constant(false, Bits::zero(count)))?;
    }
    Ok(())
}

/// A part between zeros.
#[tactic(auto, using(crate::proofs::Picking::zeros_around))]
fn padded(alloc: Global, above: u8, part: Typed, below: u8) -> Result<Node, NoMemory>
    requires above { above ≤ 128 }
    requires below { below ≤ 128 }
    ensures { IfOk result (λ n. n ≡ node.Join (zeros_before above (part ∷ zeros_before below []))) }
{
    let mut parts = Items::new(alloc);
    push_zeros(&mut parts, above)?;
    parts.push(part)?;
    push_zeros(&mut parts, below)?;
    Ok(Node::Join(parts))
}

/// Where the bits of a select lie in a word.
#[derive(Clone, Copy)]
struct Placement {
    /// How many lie below the word.
    below: u8,
    /// How many lie within.
    within: u8,
    /// Where those begin.
    from: u8,
}

/// Where the bits of a select lie in a word that has some of them.
fn placed(width: u8, bounds: Bounds, one: &Picked) -> Placement
    requires most { width ≤ 128 }
    requires some { 1 ≤ bits_within width (chosen_width (chosen_in one.now)) (first_distance bounds.left bounds.right (chosen_in one.now)) }
    ensures below { result.below ≡ bits_below (chosen_width (chosen_in one.now)) (first_distance bounds.left bounds.right (chosen_in one.now)) }
    ensures within { result.within ≡ bits_within width (chosen_width (chosen_in one.now)) (first_distance bounds.left bounds.right (chosen_in one.now)) }
    ensures from { result.from ≡ start_within (first_distance bounds.left bounds.right (chosen_in one.now)) }
    ensures fits { result.below + result.within ≤ chosen_width (chosen_in one.now) }
{
    let size = one.width();
    let distance = one.distance(bounds);
    Placement {
        below: bits_below(size, distance),
        within: bits_within(width, size, distance),
        from: start_within(distance),
    }
}

/// Some bits of the word of an array at a variable address, with zeros where it has none.
pub(crate) fn picked_word(
    alloc: Global,
    words: Words,
    index: Typed,
    one: &Picked,
) -> Result<Node, NoMemory>
    requires most { words.width ≤ 128 }
    requires some { 1 ≤ bits_within words.width (chosen_width (chosen_in one.now)) (first_distance words.bounds.left words.bounds.right (chosen_in one.now)) }
    ensures { IfOk result (λ n. n ≡ picked_word words.first words.count words.low words.width words.bounds.left words.bounds.right index one.now) }
{
    let size = one.width();
    let Placement {
        below,
        within,
        from,
    } = placed(words.width, words.bounds, one);
    let index = Boxed::new(alloc, index)?;
    let read = Node::Word {
        first: words.first,
        count: words.count,
        low: words.low,
        index,
        from,
        width: within,
    };
    if within == size {
        return Ok(read);
    }
    let above = size - (below + within);
    padded(alloc, above, sized(within, false, read), below)
}

/// A signal with its select, if there is one; `all` is all of it.
#[tactic(auto, using(crate::proofs::Picking::signal_nodes))]
fn signal_node(
    alloc: Global,
    word: Word,
    all: Node,
    selects: Items<Picked>,
) -> Result<Node, NoMemory>
    ensures { IfOk result (λ n. n ≡ signal_node word.signal word.width word.bounds.left word.bounds.right all (map select_in selects)) }
{
    match split_first(selects) {
        None => Ok(all),
        Some((one, _)) => picked_node(alloc, word, one),
    }
}

/// The word of an array at a variable address with its select.
#[tactic(auto, using(crate::proofs::Picking::word_nodes))]
fn word_node(
    alloc: Global,
    words: Words,
    index: Typed,
    selects: Items<Picked>,
) -> Result<Node, NoMemory>
    requires most { words.width ≤ 128 }
    requires some { HasSome words.width words.bounds.left words.bounds.right selects }
    ensures { IfOk result (λ n. n ≡ word_node words.first words.count words.low words.width words.bounds.left words.bounds.right index (map select_in selects)) }
{
    match split_first(selects) {
        None => {
            let index = Boxed::new(alloc, index)?;
            Ok(Node::Word {
                first: words.first,
                count: words.count,
                low: words.low,
                index,
                from: 0,
                width: words.width,
            })
        }
        Some((one, _)) => picked_word(alloc, words, index, &one),
    }
}

/// A word of an array by its index, with its select. A word at a constant address is a signal.
fn indexed_node(
    alloc: Global,
    words: Words,
    index: Boxed<Closed>,
    rest: Items<Picked>,
) -> Result<Node, NoMemory>
    requires words { words.first + words.count ≤ 4294967295 }
    requires most { words.width ≤ 128 }
    requires some { index.constant ≡ false → HasSome words.width words.bounds.left words.bounds.right rest }
    requires there { index.constant ≡ true → is_none (word_at words.first words.count words.low (known (taken index))) ≡ false }
    ensures { (signed : Bool) → IfOk result (λ n. n ≡ meaning_node (meaning.Array words.first words.count words.low words.width signed words.bounds.left words.bounds.right) (bit_select (taken index) index.typed ∷ map select_in rest)) }
{
    if !index.constant {
        return word_node(alloc, words, typed_of(index), rest);
    }
    match word_at(words.first, words.count, words.low, known(index.get())) {
        Some(signal) => {
            let word = Word {
                signal,
                width: words.width,
                bounds: words.bounds,
            };
            let all = Node::Slice {
                signal,
                from: 0,
                width: words.width,
            };
            signal_node(alloc, word, all, rest)
        }
        None => word_node(alloc, words, typed_of(index), rest),
    }
}

/// A name of an array with its selects.
fn array_node(alloc: Global, words: Words, selects: Items<Picked>) -> Result<Node, NoMemory>
    requires words { words.first + words.count ≤ 4294967295 }
    requires most { words.width ≤ 128 }
    requires readable { IsReadable (meaning.Array words.first words.count words.low words.width false words.bounds.left words.bounds.right) selects }
    ensures { (signed : Bool) → IfOk result (λ n. n ≡ meaning_node (meaning.Array words.first words.count words.low words.width signed words.bounds.left words.bounds.right) (map select_in selects)) }
{
    match split_first(selects) {
        None => Ok(Node::Whole(words.first)),
        Some((one, rest)) => match one {
            Picked::Bit(index) => indexed_node(alloc, words, index, rest),
            Picked::Part {
                kind: _,
                one: _,
                other: _,
            } => Ok(Node::Whole(words.first)),
        },
    }
}

/// The node of a name with its selects.
pub(crate) fn meaning_node(
    alloc: Global,
    meaning: Meaning,
    selects: Items<Picked>,
) -> Result<Node, NoMemory>
    requires is { IsMeaning meaning }
    requires readable { IsReadable meaning selects }
    ensures { IfOk result (λ n. n ≡ meaning_node meaning (map select_in selects)) }
{
    match meaning {
        Meaning::Constant {
            value,
            left: _,
            right: _,
        } => Ok(Node::Const(value.bits)),
        Meaning::Signal {
            signal,
            width,
            signed: _,
            left,
            right,
        } => {
            let bounds = Bounds { left, right };
            let word = Word {
                signal,
                width,
                bounds,
            };
            signal_node(alloc, word, Node::Whole(signal), selects)
        }
        Meaning::Array {
            first,
            count,
            low,
            width,
            signed: _,
            left,
            right,
        } => {
            let words = Words {
                first,
                count,
                low,
                width,
                bounds: Bounds { left, right },
            };
            array_node(alloc, words, selects)
        }
    }
}
