//! Statements carried out up to a place (IEEE 1364-2005, clause 9).

ghost use Rattle.std.specs.Prelude.{◌≡◌, ◌<◌, length, find, slice_get, Bool, IfSome, IsTrue, Option, option_copied};
ghost use Rattle.std.specs.List.{list_all, list_any};
ghost use Rattle.std.specs.Option.{option_and_then};
ghost use Rattle.loc_base.specs.Bits.{width_of, value_of};
ghost use Rattle.design_core.specs.declared.statement.Stmt.TheVariants.{Case, If};
ghost use Rattle.design_core.specs.Value.{value};
ghost use Rattle.design_core.specs.After.{assigned, matches, after};
ghost use Rattle.design_core.specs.WellFormed.{label_fits, statement_fits, typed_fits};
ghost use Rattle.design_core.specs.Words.{valuation_of, AreWordsOf};
ghost use Rattle.plain_values.specs.Evaluate.{after_list, item_matches, item_fits};
ghost use Rattle.changes.specs.Execution.{executed_in};
ghost use Rattle.changes.specs.Lists.{executed_list};
ghost use Rattle.changes.specs.Moments.{IsMoment, Walks, as_updates, choice_in};

use crate::moment::Moment;
use design_core::{CaseItem, Label, Signal, Stmt, Typed};
use loc_base::Bits;
use plain_values::{assign, assigned, value};

/// Whether a label of a case item is equal to the subject outside its wild bits (IEEE 1364-2005, 9.5).
fn some_label_matches(signals: &[Signal], words: &[Bits], subject: Bits, labels: &[Label]) -> bool
    requires words { AreWordsOf signals.now words.now }
    requires fits { IsTrue (list_all (label_fits signals.now (width_of subject)) labels.now) }
    ensures { result ≡ list_any (matches signals.now (valuation_of words.now) (value_of subject)) labels.now }
{
    for label in labels {
        let wanted = value(signals, words, &label.value);
        if subject.or(label.wild) == wanted.or(label.wild) {
            return true;
        }
    }
    false
}

/// The place of the first case item that has a label equal to the subject.
fn matching_item(
    moment: &Moment<'_>,
    words: &[Bits],
    subject: Bits,
    items: &[CaseItem],
) -> Option<usize>
    requires words { AreWordsOf moment.now.design.now.signals.items words.now }
    requires fits { IsTrue (list_all
        (item_fits moment.now.design.now.signals.items moment.now.design.now.places.items (width_of subject)) items.now) }
    ensures within { IfSome result (λ i. i < length items.now) }
    ensures first { option_and_then (slice_get items.now) result
        ≡ find (item_matches moment.now.design.now.signals.items (valuation_of words.now) (value_of subject)) items.now }
{
    for (i, item) in items.iter().enumerate() {
        if some_label_matches(&moment.design.signals, words, subject, &item.labels) {
            return Some(i);
        }
    }
    None
}

/// A place that is looked for in a cycle.
#[derive(Clone, Copy)]
pub(crate) struct Seek<'m> {
    pub(crate) moment: Moment<'m>,
    pub(crate) place: u32,
}

/// The word that a place takes: the chosen one where it is freed, else what its right side computes.
fn taken(seek: &Seek<'_>, place: u32, side: &Typed, now: &[Bits]) -> Bits
    requires moment { IsMoment seek.now.moment }
    requires place { place < length seek.now.moment.design.now.places.items }
    requires now { AreWordsOf seek.now.moment.design.now.signals.items now.now }
    requires side { IsTrue (typed_fits seek.now.moment.design.now.signals.items side.now) }
    ensures { value_of result ≡ assigned (choice_in seek.now.moment) place
        (value seek.now.moment.design.now.signals.items (valuation_of now.now) side.now) }
{
    let computed = value(&seek.moment.design.signals, now, side);
    assigned(seek.moment.freed, seek.moment.chosen, place, computed)
}

/// Carries out a statement up to a place, and answers the place's right side, which is then to be computed with the words that are
/// read; where the statement doesn't execute the place, all of the statement. Takes no memory.
#[cycle(walk)]
pub(crate) fn walk<'a>(
    seek: &Seek<'_>,
    statement: &'a Stmt,
    now: &mut [Bits],
    later: &mut [Bits],
) -> Option<&'a Typed>
    requires moment { IsMoment seek.now.moment }
    requires now { AreWordsOf seek.now.moment.design.now.signals.items now.old }
    requires later { AreWordsOf seek.now.moment.design.now.signals.items later.old }
    requires fits { IsTrue (statement_fits seek.now.moment.design.now.signals.items seek.now.moment.design.now.places.items statement.now) }
    ensures now_words { AreWordsOf seek.now.moment.design.now.signals.items now.new }
    ensures later_words { AreWordsOf seek.now.moment.design.now.signals.items later.new }
    ensures walks { Walks seek.now.moment.design.now seek.now.place
        (executed_in seek.now.moment.design.now.signals.items (choice_in seek.now.moment) seek.now.place statement.now (as_updates now.old later.old))
        (after seek.now.moment.design.now.signals.items (choice_in seek.now.moment) statement.now (as_updates now.old later.old))
        (option_copied result) now.new later.new }
{
    match statement {
        Stmt::Nothing => None,
        Stmt::Block(statements) => walk_all(seek, statements, now, later),
        Stmt::If { cond, yes, no } => walk_if(seek, cond, yes, no, now, later),
        Stmt::Case {
            subject,
            items,
            other,
            ..
        } => { walk_case(seek, subject, items, other, now, later) }
        Stmt::Set {
            place,
            target,
            value,
            later: is_later,
        } => {
            if *place == seek.place {
                return Some(value);
            }
            let word = taken(seek, *place, value, now);
            assign(
                &seek.moment.design.signals,
                now,
                later,
                &target.parts,
                word,
                *is_later,
            );
            None
        }
    }
}

/// Carries out the arm of a condition that is taken (IEEE 1364-2005, 9.4), up to a place.
#[cycle(walk)]
fn walk_if<'a>(
    seek: &Seek<'_>,
    cond: &Typed,
    yes: &'a Stmt,
    no: &'a Stmt,
    now: &mut [Bits],
    later: &mut [Bits],
) -> Option<&'a Typed>
    requires moment { IsMoment seek.now.moment }
    requires now { AreWordsOf seek.now.moment.design.now.signals.items now.old }
    requires later { AreWordsOf seek.now.moment.design.now.signals.items later.old }
    requires cond { IsTrue (typed_fits seek.now.moment.design.now.signals.items cond.now) }
    requires yes { IsTrue (statement_fits seek.now.moment.design.now.signals.items seek.now.moment.design.now.places.items yes.now) }
    requires no { IsTrue (statement_fits seek.now.moment.design.now.signals.items seek.now.moment.design.now.places.items no.now) }
    ensures now_words { AreWordsOf seek.now.moment.design.now.signals.items now.new }
    ensures later_words { AreWordsOf seek.now.moment.design.now.signals.items later.new }
    ensures walks { Walks seek.now.moment.design.now seek.now.place
        (executed_in seek.now.moment.design.now.signals.items (choice_in seek.now.moment) seek.now.place (If cond.now yes.now no.now) (as_updates now.old later.old))
        (after seek.now.moment.design.now.signals.items (choice_in seek.now.moment) (If cond.now yes.now no.now) (as_updates now.old later.old))
        (option_copied result) now.new later.new }
{
    if value(&seek.moment.design.signals, now, cond).value() != 0 {
        walk(seek, yes, now, later)
    } else {
        walk(seek, no, now, later)
    }
}

/// Carries out the first item of a case that has a label equal to the subject, else its other statement (IEEE 1364-2005, 9.5), up to a
/// place.
#[cycle(walk)]
fn walk_case<'a>(
    seek: &Seek<'_>,
    subject: &Typed,
    items: &'a [CaseItem],
    other: &'a Stmt,
    now: &mut [Bits],
    later: &mut [Bits],
) -> Option<&'a Typed>
    requires moment { IsMoment seek.now.moment }
    requires now { AreWordsOf seek.now.moment.design.now.signals.items now.old }
    requires later { AreWordsOf seek.now.moment.design.now.signals.items later.old }
    requires subject { IsTrue (typed_fits seek.now.moment.design.now.signals.items subject.now) }
    requires items { IsTrue (list_all (item_fits seek.now.moment.design.now.signals.items seek.now.moment.design.now.places.items subject.now.width) items.now) }
    requires other { IsTrue (statement_fits seek.now.moment.design.now.signals.items seek.now.moment.design.now.places.items other.now) }
    ensures now_words { AreWordsOf seek.now.moment.design.now.signals.items now.new }
    ensures later_words { AreWordsOf seek.now.moment.design.now.signals.items later.new }
    ensures walks { (wild : Bool) → Walks seek.now.moment.design.now seek.now.place
        (executed_in seek.now.moment.design.now.signals.items (choice_in seek.now.moment) seek.now.place (Case subject.now items.now other.now wild)
        (as_updates now.old later.old))
        (after seek.now.moment.design.now.signals.items (choice_in seek.now.moment) (Case subject.now items.now other.now wild) (as_updates now.old later.old))
        (option_copied result) now.new later.new }
{
    let subject = value(&seek.moment.design.signals, now, subject);
    match matching_item(&seek.moment, now, subject, items) {
        Some(i) => walk(seek, &items[i].body, now, later),
        None => walk(seek, other, now, later),
    }
}

/// Carries out statements in order up to a place.
#[cycle(walk)]
fn walk_all<'a>(
    seek: &Seek<'_>,
    statements: &'a [Stmt],
    now: &mut [Bits],
    later: &mut [Bits],
) -> Option<&'a Typed>
    requires moment { IsMoment seek.now.moment }
    requires now { AreWordsOf seek.now.moment.design.now.signals.items now.old }
    requires later { AreWordsOf seek.now.moment.design.now.signals.items later.old }
    requires fits { IsTrue (list_all (statement_fits seek.now.moment.design.now.signals.items seek.now.moment.design.now.places.items) statements.now) }
    ensures now_words { AreWordsOf seek.now.moment.design.now.signals.items now.new }
    ensures later_words { AreWordsOf seek.now.moment.design.now.signals.items later.new }
    ensures walks { Walks seek.now.moment.design.now seek.now.place
        (executed_list seek.now.moment.design.now.signals.items (choice_in seek.now.moment) seek.now.place statements.now (as_updates now.old later.old))
        (after_list seek.now.moment.design.now.signals.items (choice_in seek.now.moment) statements.now (as_updates now.old later.old))
        (option_copied result) now.new later.new }
{
    for statement in statements {
        if let Some(side) = walk(seek, statement, now, later) {
            return Some(side);
        }
    }
    None
}
