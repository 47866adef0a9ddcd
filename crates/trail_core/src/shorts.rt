ghost use Rattle.std.specs.Prelude.{◌≡◌, ℕ, ◌+◌, ◌*◌, ◌<◌, ◌≤◌, ◌++◌, ◌∷◌, [], ◌&&◌, true, false, cond, IsTrue, length, get_or, map, IfOk, OnOk};
ghost use Rattle.clause_base.specs.Literal.{has_distinct_variables};
ghost use Rattle.trail_core.specs.Watching.{code_of, is_short};
ghost use Rattle.trail_core.specs.ShortListing.{no_shorts};
ghost use Rattle.trail_core.specs.Shorts.{lists_of, shorts_of, SameLists, entry_at, next_place, HasShortPlace, SameShorts, HaveShortLists, HaveShortPlaces, PushesShort, Enters, HasNoShorts};

use crate::short_list::{Short, ShortList};
use crate::watches::code_of;
use clause_base::Lit;
use loc_base::{NoMemory, Rows};
use std::alloc::Global;

/// The clauses of at most three literals that were there before the first propagation, in a list of each of their literals. No
/// entry is ever moved or changed.
#[derive(Drop)]
pub(crate) struct Shorts {
    /// The list of each literal, at the literal's code, while the lists take more clauses.
    pub(crate) growing: Vec<ShortList>,
    /// The list of each literal, at the literal's code, in one piece of memory; no lists where that wasn't made.
    pub(crate) flat: Rows<Short>,
    /// Of so many first clauses those of at most three literals stand there.
    pub(crate) fixed: u32,
}

/// Whether a clause has at most three literals.
pub(crate) fn is_short(literals: &[Lit]) -> bool
    ensures { result ≡ is_short literals.now }
{
    literals.len() <= 3
}

/// Whether a clause of these literals stands in the lists of all of them, where the lists take more clauses.
pub(crate) fn is_taken(takes: bool, literals: &[Lit]) -> bool
    ensures { result ≡ (takes && is_short literals.now) }
{
    takes && is_short(literals)
}

/// Counts the clause among the first ones, where the lists take more clauses.
pub(crate) fn count_clause(shorts: &mut Shorts, takes: bool, number: u32)
    ensures growing { shorts.new.growing ≡ shorts.old.growing }
    ensures flat { shorts.new.flat ≡ shorts.old.flat }
    ensures fixed { shorts.new.fixed ≡ cond takes number shorts.old.fixed }
{
    if takes {
        shorts.fixed = number;
    }
}

/// The clauses that have the literal.
pub(crate) fn clauses_with(shorts: &Shorts, l: Lit) -> &[Short]
    requires { code_of l < length (lists_of shorts.now) }
    ensures { result.now ≡ shorts_of (lists_of shorts.now) l }
{
    if shorts.flat.is_empty() {
        shorts.growing[code_of(l)].clauses()
    } else {
        shorts.flat.row(code_of(l))
    }
}

/// The lists in one piece of memory.
fn rows_of(alloc: Global, lists: &[ShortList]) -> Result<Rows<Short>, NoMemory>
    ensures { IfOk result (λ r. r ≡ map (λ s. s.clauses) lists.now) }
{
    let mut rows = Rows::new(alloc);
    for list in lists {
        rows.push(list.clauses())?;
    }
    Ok(rows)
}

/// Puts the lists into one piece of memory, unless they stand there. Where there is no memory for that they stay as they are.
pub(crate) fn flatten(shorts: &mut Shorts)
    ensures { SameLists shorts.old shorts.new }
{
    if !shorts.flat.is_empty() {
        return;
    }
    let alloc = *shorts.growing.allocator();
    if let Ok(rows) = rows_of(alloc, &shorts.growing) {
        shorts.flat = rows;
        shorts.growing = Vec::new(alloc);
    }
}

/// So many lists without clauses.
fn empty_lists(alloc: Global, size: usize) -> Result<Vec<ShortList>, NoMemory>
    ensures size { IfOk result (λ v. length v.items ≡ size) }
    ensures empty { IfOk result (λ v. (i : ℕ) → (get_or v.items i no_shorts).clauses ≡ []) }
{
    let mut lists = Vec::with_capacity(alloc, size)?;
    for _ in 0..size {
        lists.push(ShortList::new(alloc))?;
    }
    Ok(lists)
}

/// The lists of the literals of so many variables, without clauses.
pub(crate) fn no_short_clauses(alloc: Global, vars: u32) -> Result<Shorts, NoMemory>
    ensures { IfOk result (HasNoShorts vars) }
{
    Ok(Shorts {
        growing: empty_lists(alloc, 2 * vars as usize + 2)?,
        flat: Rows::new(alloc),
        fixed: 0,
    })
}

/// Makes room for one clause more in the list of a literal.
fn make_short_place(shorts: &mut Shorts, l: Lit) -> Result<(), NoMemory>
    requires { code_of l < length shorts.old.growing.items }
    ensures same { SameShorts shorts.old shorts.new }
    ensures more { OnOk result (HasShortPlace shorts.new l) }
{
    shorts.growing[code_of(l)].make_room()
}

/// Makes room for one clause more in the list of each of the literals.
fn make_short_places(shorts: &mut Shorts, literals: &[Lit]) -> Result<(), NoMemory>
    requires { HaveShortLists shorts.old literals.now }
    ensures same { SameShorts shorts.old shorts.new }
    ensures more { OnOk result (HaveShortPlaces shorts.new literals.now) }
{
    for l in literals {
        make_short_place(shorts, *l)?;
    }
    Ok(())
}

/// Makes room for a clause of these literals in their lists, where it is to stand there.
pub(crate) fn make_short_room(
    shorts: &mut Shorts,
    takes: bool,
    literals: &[Lit],
) -> Result<(), NoMemory>
    requires { takes ≡ true → HaveShortLists shorts.old literals.now }
    ensures same { SameShorts shorts.old shorts.new }
    ensures more { OnOk result ((takes && is_short literals.now) ≡ true → HaveShortPlaces shorts.new literals.now) }
{
    if !is_taken(takes, literals) {
        return Ok(());
    }
    make_short_places(shorts, literals)?;
    Ok(())
}

/// The place behind another one, going round.
fn next_place(place: usize, count: usize) -> usize
    requires { place < count }
    ensures { result ≡ next_place place count }
{
    if place + 1 < count { place + 1 } else { 0 }
}

/// What the list of the literal at that place has of the clause.
fn entry_at(literals: &[Lit], number: u32, place: usize) -> Short
    requires { place < length literals.now }
    ensures { result ≡ entry_at literals.now number place }
{
    let next = next_place(place, literals.len());
    let last = next_place(next, literals.len());
    let one = literals[next];
    let two = literals[last];
    Short {
        one_var: one.var,
        two_var: two.var,
        number,
        one_negated: one.negated,
        two_negated: two.negated,
    }
}

/// Appends a clause to the list of a literal.
fn push_short(shorts: &mut Shorts, l: Lit, short: Short)
    requires within { code_of l < length shorts.old.growing.items }
    requires place { HasShortPlace shorts.old l }
    ensures { PushesShort shorts.old shorts.new l short }
{
    shorts.growing[code_of(l)].push(short);
}

/// Appends the clause to the list of each of its literals.
fn enter_all(shorts: &mut Shorts, number: u32, literals: &[Lit])
    requires distinct { IsTrue (has_distinct_variables literals.now) }
    requires lists { HaveShortLists shorts.old literals.now }
    requires places { HaveShortPlaces shorts.old literals.now }
    ensures { Enters shorts.old shorts.new number literals.now }
{
    for place in 0..literals.len() {
        let l = literals[place];
        let short = entry_at(literals, number, place);
        push_short(shorts, l, short);
    }
}

/// Appends the clause to the lists of its literals, where it is to stand there.
pub(crate) fn enter(shorts: &mut Shorts, takes: bool, number: u32, literals: &[Lit])
    requires distinct { IsTrue (has_distinct_variables literals.now) }
    requires lists { takes ≡ true → HaveShortLists shorts.old literals.now }
    requires places { (takes && is_short literals.now) ≡ true → HaveShortPlaces shorts.old literals.now }
    ensures short { (takes && is_short literals.now) ≡ true → Enters shorts.old shorts.new number literals.now }
    ensures long { (takes && is_short literals.now) ≡ false → shorts.new ≡ shorts.old }
{
    if !is_taken(takes, literals) {
        return;
    }
    enter_all(shorts, number, literals);
}
