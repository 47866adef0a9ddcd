ghost use Rattle.std.specs.Prelude.{◌≡◌, ◌≤◌, ◌<◌, ◌^◌, ◌||◌, ◌==◌, ℕ, true, length, bit_or, IfOk, IfSome, IfNone, IsTrue, false, IsSome, ◌↔◌, slice_index_or, replicate};
ghost use Rattle.std.specs.List.{list_any, list_all};
ghost use Rattle.loc_base.specs.Bits.{width_of, value_of};
ghost use Rattle.design_core.specs.Constant.{is_constant, zeros};
ghost use Rattle.design_core.specs.FullCase.{all_below, constant_matches, decided, deciding_bits};
ghost use Rattle.design_core.specs.Operator.{resized};
ghost use Rattle.design_core.specs.Reads.{is_nothing};
ghost use Rattle.design_core.specs.Value.{value};
ghost use Rattle.design_core.specs.WellFormed.{label_fits, typed_fits};
ghost use Rattle.design_bits.specs.Full.{Marks, is_full_of, labels_fit, labels_take};

use design_core::{CaseItem, Design, Label, Node, Signal, Stmt, Typed};
use loc_base::{Bits, NoMemory};
use std::alloc::Global;

/// Whether a statement is none.
pub(crate) fn is_nothing(statement: &Stmt) -> bool
    ensures { result ≡ is_nothing statement.now }
{
    matches!(statement, Stmt::Nothing)
}

/// A word carried to a width by its sign, or cut to it (IEEE 1364-2005, 5.5.3).
fn carried(word: Bits, signed: bool, width: u8) -> Bits
    requires least { 1 ≤ width }
    requires most { width ≤ 128 }
    ensures width { width_of result ≡ width }
    ensures value { value_of result ≡ resized width signed (width_of word) (value_of word) }
{
    if word.width() <= width {
        word.extend(width, signed)
    } else {
        word.cut(width)
    }
}

/// The value of a constant, perhaps one carried to another width; `None` where an expression is none.
#[tactic(auto, using(crate::proofs::FullLaws::resize_steps))]
fn constant_value(signals: &[Signal], e: &Typed) -> Option<Bits>
    requires { IsTrue (typed_fits signals.now e.now) }
    ensures constant { IsTrue (is_constant e.now.node) ↔ IsSome result }
    ensures width { IfSome result (λ word. width_of word ≡ e.now.width) }
    ensures value { IfSome result (λ word. value_of word ≡ value signals.now zeros e.now) }
{
    match &e.node {
        Node::Const(word) => Some(*word),
        Node::Resize(arg) => match constant_value(signals, arg) {
            Some(word) => Some(carried(word, arg.signed, e.width)),
            None => None,
        },
        _ => None,
    }
}

/// The number of bits that decide a subject's value: where it is carried to a width, those of its operand.
#[tactic(auto, using(crate::proofs::FullLaws::resize_steps))]
fn deciding_bits(subject: &Typed) -> u8
    ensures { result ≡ deciding_bits subject.now.width subject.now.node }
{
    match &subject.node {
        Node::Resize(arg) => arg.width,
        _ => subject.width,
    }
}

/// The subject's value where the bits that decide it are these.
#[tactic(auto, using(crate::proofs::FullLaws::resize_steps))]
fn decided(signals: &[Signal], subject: &Typed, bits: Bits) -> Bits
    requires fits { IsTrue (typed_fits signals.now subject.now) }
    requires bits { width_of bits ≡ deciding_bits subject.now.width subject.now.node }
    ensures width { width_of result ≡ subject.now.width }
    ensures value { value_of result ≡ decided subject.now.width subject.now.node (value_of bits) }
{
    match &subject.node {
        Node::Resize(arg) => carried(bits, arg.signed, subject.width),
        _ => bits,
    }
}

/// A number as a word.
fn word_of(width: u8, number: usize) -> Bits
    requires least { 1 ≤ width }
    requires most { width ≤ 128 }
    requires fits { number < 2 ^ width }
    ensures width { width_of result ≡ width }
    ensures value { value_of result ≡ number }
{
    match Bits::new(width, number as u128) {
        Some(word) => word,
        None => unreachable!(),
    }
}

/// Whether the subject's value by a number is equal to a word outside the wild bits (IEEE 1364-2005, 9.5).
#[tactic(auto, using(crate::proofs::FullLaws::deciding_bounds))]
fn is_taken(signals: &[Signal], subject: &Typed, number: usize, wanted: Bits, wild: Bits) -> bool
    requires fits { IsTrue (typed_fits signals.now subject.now) }
    requires number { number < 2 ^ deciding_bits subject.now.width subject.now.node }
    requires width { width_of wanted ≡ subject.now.width }
    requires wild { width_of wild ≡ subject.now.width }
    ensures { result ≡ (bit_or (decided subject.now.width subject.now.node number) (value_of wild) == bit_or (value_of wanted) (value_of wild)) }
{
    let bits = word_of(deciding_bits(subject), number);
    decided(signals, subject, bits).or(wild) == wanted.or(wild)
}

/// Marks the numbers by which the subject's value is equal to a constant label.
fn mark_label(seen: &mut [bool], signals: &[Signal], subject: &Typed, label: &Label)
    requires subject { IsTrue (typed_fits signals.now subject.now) }
    requires fits { IsTrue (label_fits signals.now subject.now.width label.now) }
    requires long { length seen.old ≡ 2 ^ deciding_bits subject.now.width subject.now.node }
    ensures { Marks seen.old seen.new (λ n. constant_matches signals.now (decided subject.now.width subject.now.node n) label.now) }
{
    if let Some(word) = constant_value(signals, &label.value) {
        for number in 0..seen.len() {
            let is_seen = seen[number] || is_taken(signals, subject, number, word, label.wild);
            seen[number] = is_seen;
        }
    }
}

/// Marks the numbers by which the subject's value is equal to some constant label.
fn mark_labels(seen: &mut [bool], signals: &[Signal], subject: &Typed, labels: &[Label])
    requires subject { IsTrue (typed_fits signals.now subject.now) }
    requires fits { IsTrue (list_all (label_fits signals.now subject.now.width) labels.now) }
    requires long { length seen.old ≡ 2 ^ deciding_bits subject.now.width subject.now.node }
    ensures { Marks seen.old seen.new (λ n. list_any (constant_matches signals.now (decided subject.now.width subject.now.node n)) labels.now) }
{
    for label in labels {
        mark_label(seen, signals, subject, label);
    }
}

/// Marks the numbers by which the subject's value is equal to some constant label of some item.
fn mark_items(seen: &mut [bool], signals: &[Signal], subject: &Typed, items: &[CaseItem])
    requires subject { IsTrue (typed_fits signals.now subject.now) }
    requires fits { IsTrue (list_all (labels_fit signals.now subject.now.width) items.now) }
    requires long { length seen.old ≡ 2 ^ deciding_bits subject.now.width subject.now.node }
    ensures { Marks seen.old seen.new (λ n. list_any (labels_take signals.now subject.now n) items.now) }
{
    for item in items {
        mark_labels(seen, signals, subject, &item.labels);
    }
}

/// The first number that is not marked.
fn first_unmarked(seen: &[bool]) -> Option<usize>
    ensures none { IfNone result ((k : ℕ) → k < length seen.now → slice_index_or seen.now k false ≡ true) }
    ensures some { IfSome result (λ k. (k < length seen.now) × (slice_index_or seen.now k false ≡ false)) }
{
    for (number, is_seen) in seen.iter().enumerate() {
        if !*is_seen {
            return Some(number);
        }
    }
    None
}

/// Whether some item has a constant label for each number; the table has none marked.
fn takes_all(seen: &mut [bool], signals: &[Signal], subject: &Typed, items: &[CaseItem]) -> bool
    requires subject { IsTrue (typed_fits signals.now subject.now) }
    requires fits { IsTrue (list_all (labels_fit signals.now subject.now.width) items.now) }
    requires none { seen.old ≡ replicate (2 ^ deciding_bits subject.now.width subject.now.node) false }
    ensures { result ≡ all_below (2 ^ deciding_bits subject.now.width subject.now.node) (λ n. list_any (labels_take signals.now subject.now n) items.now) }
{
    mark_items(seen, signals, subject, items);
    match first_unmarked(seen) {
        None => true,
        Some(_) => false,
    }
}

/// Whether a case takes an item whatever the value of its subject is: for each value of at most 8 bits some item has a constant
/// label that is equal to it.
pub(crate) fn is_full(
    alloc: Global,
    signals: &[Signal],
    subject: &Typed,
    items: &[CaseItem],
) -> Result<bool, NoMemory>
    requires subject { IsTrue (typed_fits signals.now subject.now) }
    requires fits { IsTrue (list_all (labels_fit signals.now subject.now.width) items.now) }
    ensures full { IfOk result (λ full. full ≡ is_full_of signals.now subject.now items.now) }
    ensures some { IfOk result (λ full. full ≡ true → 0 < length items.now) }
{
    let bits = deciding_bits(subject);
    if bits > 8 {
        return Ok(false);
    }
    let mut seen = vec![in alloc; false; 1usize << u32::from(bits)]?;
    Ok(takes_all(&mut seen, signals, subject, items))
}
