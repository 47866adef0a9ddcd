ghost use Rattle.std.specs.Prelude.{◌≡◌, ◌==◌, ◌<◌, length, find, slice_get, Some, true, false, IfSome, IsTrue, Option};
ghost use Rattle.std.specs.List.{list_all, list_any};
ghost use Rattle.std.specs.Option.{option_and_then};
ghost use Rattle.loc_base.specs.Bits.{width_of, value_of};
ghost use Rattle.design_core.specs.After.{assigned, matches, after};
ghost use Rattle.design_core.specs.WellFormed.{label_fits, statement_fits};
ghost use Rattle.design_core.specs.Words.{valuation_of, AreWordsOf, choice_of};
ghost use Rattle.plain_values.specs.Evaluate.{item_matches, item_fits, after_list};

use crate::expression::{holds, value};
use crate::store::assign;
use design_core::{CaseItem, Design, Label, Signal, Stmt};
use loc_base::Bits;

/// What a place assigns: the word that is chosen for it where it is freed, else the computed one, in its own width.
#[tactic(auto, using(crate::proofs::EvaluateWords::slice_get_at, crate::proofs::EvaluateWords::slice_get_same))]
pub fn assigned(freed: &[bool], chosen: &[Bits], place: u32, computed: Bits) -> Bits
    requires freed { place < length freed.now }
    requires chosen { place < length chosen.now }
    ensures value { value_of result ≡ assigned (choice_of freed.now chosen.now) place (value_of computed) }
    ensures freed { slice_get freed.now place ≡ Some true → slice_get chosen.now place ≡ Some result }
    ensures computed { slice_get freed.now place ≡ Some false → result ≡ computed }
{
    if !freed[place as usize] {
        return computed;
    }
    chosen[place as usize]
}

/// Whether a label is equal to the subject outside its wild bits (IEEE 1364-2005, 9.5).
fn label_matches(signals: &[Signal], words: &[Bits], subject: Bits, label: &Label) -> bool
    requires words { AreWordsOf signals.now words.now }
    requires fits { IsTrue (label_fits signals.now (width_of subject) label.now) }
    ensures { result ≡ matches signals.now (valuation_of words.now) (value_of subject) label.now }
{
    let wanted = value(signals, words, &label.value);
    subject.or(label.wild) == wanted.or(label.wild)
}

/// Whether a label of a case item is equal to the subject.
fn some_label_matches(signals: &[Signal], words: &[Bits], subject: Bits, labels: &[Label]) -> bool
    requires words { AreWordsOf signals.now words.now }
    requires fits { IsTrue (list_all (label_fits signals.now (width_of subject)) labels.now) }
    ensures { result ≡ list_any (matches signals.now (valuation_of words.now) (value_of subject)) labels.now }
{
    for label in labels {
        if label_matches(signals, words, subject, label) {
            return true;
        }
    }
    false
}

/// The place of the first case item that has a label equal to the subject.
fn matching_item(
    design: &Design,
    words: &[Bits],
    subject: Bits,
    items: &[CaseItem],
) -> Option<usize>
    requires words { AreWordsOf design.now.signals.items words.now }
    requires fits { IsTrue (list_all (item_fits design.now.signals.items design.now.places.items (width_of subject)) items.now) }
    ensures within { IfSome result (λ i. i < length items.now) }
    ensures first { option_and_then (slice_get items.now) result
        ≡ find (item_matches design.now.signals.items (valuation_of words.now) (value_of subject)) items.now }
{
    for (i, item) in items.iter().enumerate() {
        if some_label_matches(&design.signals, words, subject, &item.labels) {
            return Some(i);
        }
    }
    None
}

/// Runs a statement (IEEE 1364-2005, clause 9) on the words that are read and on those of later updates. `freed` and
/// `chosen` have one entry for each place of the design: whether it is freed, and the value that it then takes. Takes
/// no memory.
#[cycle(run)]
pub fn run_statement(
    design: &Design,
    freed: &[bool],
    chosen: &[Bits],
    now: &mut [Bits],
    later: &mut [Bits],
    statement: &Stmt,
)
    requires now { AreWordsOf design.now.signals.items now.old }
    requires later { AreWordsOf design.now.signals.items later.old }
    requires freed { length freed.now ≡ length design.now.places.items }
    requires chosen { length chosen.now ≡ length design.now.places.items }
    requires fits { IsTrue (statement_fits design.now.signals.items design.now.places.items statement.now) }
    ensures now_words { AreWordsOf design.now.signals.items now.new }
    ensures later_words { AreWordsOf design.now.signals.items later.new }
    ensures value { record { now = valuation_of now.new; later = valuation_of later.new }
        ≡ after design.now.signals.items (choice_of freed.now chosen.now) statement.now
        (record { now = valuation_of now.old; later = valuation_of later.old }) }
{
    match statement {
        Stmt::Nothing => {}
        Stmt::Block(statements) => run_all(design, freed, chosen, now, later, statements),
        Stmt::If { cond, yes, no } => {
            if holds(&design.signals, now, cond) {
                run_statement(design, freed, chosen, now, later, yes);
            } else {
                run_statement(design, freed, chosen, now, later, no);
            }
        }
        Stmt::Case {
            subject,
            items,
            other,
            ..
        } => {
            let subject = value(&design.signals, now, subject);
            match matching_item(design, now, subject, items) {
                Some(i) => run_statement(design, freed, chosen, now, later, &items[i].body),
                None => run_statement(design, freed, chosen, now, later, other),
            }
        }
        Stmt::Set {
            place,
            target,
            value: computed,
            later: is_later,
        } => {
            let computed = value(&design.signals, now, computed);
            let word = assigned(freed, chosen, *place, computed);
            assign(&design.signals, now, later, &target.parts, word, *is_later);
        }
    }
}

/// Runs statements in order.
#[cycle(run)]
fn run_all(
    design: &Design,
    freed: &[bool],
    chosen: &[Bits],
    now: &mut [Bits],
    later: &mut [Bits],
    statements: &[Stmt],
)
    requires now { AreWordsOf design.now.signals.items now.old }
    requires later { AreWordsOf design.now.signals.items later.old }
    requires freed { length freed.now ≡ length design.now.places.items }
    requires chosen { length chosen.now ≡ length design.now.places.items }
    requires fits { IsTrue (list_all (statement_fits design.now.signals.items design.now.places.items) statements.now) }
    ensures now_words { AreWordsOf design.now.signals.items now.new }
    ensures later_words { AreWordsOf design.now.signals.items later.new }
    ensures value { record { now = valuation_of now.new; later = valuation_of later.new }
        ≡ after_list design.now.signals.items (choice_of freed.now chosen.now) statements.now
        (record { now = valuation_of now.old; later = valuation_of later.old }) }
{
    for statement in statements {
        run_statement(design, freed, chosen, now, later, statement);
    }
}
