ghost use Rattle.std.specs.Prelude.{◌≡◌, ℕ, ◌+◌, ◌*◌, ◌<◌, ◌^◌, ◌≤◌, ◌++◌, ◌∷◌, [], ◌&&◌, true, false, length, take, slice_index, slice_set, get_or, IfOk, OnOk, ◌⊎◌};
ghost use Rattle.std.specs.Vec.{vec_capacity};
ghost use Rattle.clause_base.specs.Literal.{same_lit};
ghost use Rattle.trail_core.specs.Listing.{nothing};
ghost use Rattle.trail_core.specs.Watching.{is_short, code_of, list_of, room_of};
ghost use Rattle.trail_core.specs.Visits.{IsListedMore, HasNone, HaveLists, HavePlaces, IsWider};

use crate::shorts::is_taken;
use clause_base::Lit;
use loc_base::NoMemory;
use std::alloc::Global;
use std::marker::Model;

/// Two literals of a clause, at which propagation looks for it.
#[derive(Clone, Copy)]
pub(crate) struct Pair {
    pub(crate) first: Lit,
    pub(crate) second: Lit,
}

/// Whether the two literals are the same.
pub(crate) fn are_same(l: Lit, m: Lit) -> bool
    ensures { result ≡ same_lit l m }
{
    l.var == m.var && l.negated == m.negated
}

/// The watched literals of the clauses, and where they are looked for.
#[derive(Drop)]
pub(crate) struct Watches {
    /// The pair of each of the first clauses, at its number less 1.
    pub(crate) pairs: Vec<Pair>,
    /// The clauses that watch a literal, at the literal's code.
    pub(crate) lists: Vec<WatchList>,
    /// How many of the true literals were gone over.
    pub(crate) gone_over: u32,
}

/// The numbers of the clauses that watch a literal. Contracts see it as that list, and how many numbers have a place in it.
#[derive(Drop)]
pub(crate) struct WatchList {
    numbers: Vec<u32>,
    /// For so many numbers there is memory.
    room: usize,
}

impl Model for WatchList {
    ghost use Rattle.std.specs.Prelude.{◌≤◌, length};
    ghost use Rattle.std.specs.Vec.{vec_capacity};
    ghost use Rattle.trail_core.specs.Listing.{Listing};

    ghost Value = { Listing };

    ghost view = { λ w. record { numbers = w.numbers.items; room = w.room } };

    ghost invariant = { λ w. (length w.numbers.items ≤ w.room) × (w.room ≤ vec_capacity w.numbers) };
}

impl WatchList {
    /// No numbers, and no place for any.
    pub(crate) fn new(alloc: Global) -> WatchList
        ensures { result ≡ nothing }
    {
        WatchList {
            numbers: Vec::new(alloc),
            room: 0,
        }
    }

    /// How many numbers there are.
    pub(crate) fn len(&self) -> usize
        ensures { result ≡ length self.now.numbers }
    {
        self.numbers.len()
    }

    /// The number at that place.
    pub(crate) fn number(&self, place: usize) -> u32
        requires { place < length self.now.numbers }
        ensures { result ≡ slice_index self.now.numbers place }
    {
        self.numbers[place]
    }

    /// Makes room for one number more.
    pub(crate) fn make_room(&mut self) -> Result<(), NoMemory>
        ensures numbers { self.new.numbers ≡ self.old.numbers }
        ensures room { self.old.room ≤ self.new.room }
        ensures more { OnOk result (self.new.room ≡ self.old.room + 1) }
    {
        let more = self.room + 1;
        self.numbers.reserve(more - self.numbers.len())?;
        self.room = more;
        Ok(())
    }

    /// Appends a number.
    pub(crate) fn push(&mut self, number: u32)
        requires { length self.old.numbers < self.old.room }
        ensures { self.new ≡ record { numbers = self.old.numbers ++ number ∷ []; room = self.old.room } }
    {
        self.numbers.push(number).unwrap();
    }

    /// Puts a number at that place.
    pub(crate) fn set(&mut self, place: usize, number: u32)
        requires { place < length self.old.numbers }
        ensures { self.new ≡ record { numbers = slice_set self.old.numbers place number; room = self.old.room } }
    {
        self.numbers[place] = number;
    }

    /// Leaves the first numbers.
    pub(crate) fn truncate(&mut self, count: usize)
        ensures { self.new ≡ record { numbers = take count self.old.numbers; room = self.old.room } }
    {
        self.numbers.truncate(count);
    }
}

/// The place of a literal's list.
pub(crate) fn code_of(l: Lit) -> usize
    ensures { result ≡ code_of l }
{
    2 * l.var as usize + usize::from(l.negated)
}

/// Appends the number to the literal's list.
pub(crate) fn push_number(watches: &mut Watches, l: Lit, number: u32)
    requires within { code_of l < length watches.old.lists.items }
    requires room { length (list_of watches.old.lists.items l) < room_of watches.old.lists.items l }
    ensures { IsListedMore watches.old watches.new l number }
{
    watches.lists[code_of(l)].push(number);
}

/// So many lists without numbers.
fn no_lists(alloc: Global, size: usize) -> Result<Vec<WatchList>, NoMemory>
    ensures size { IfOk result (λ v. length v.items ≡ size) }
    ensures empty { IfOk result (λ v. (i : ℕ) → get_or v.items i nothing ≡ nothing) }
{
    let mut lists = Vec::new(alloc);
    for _ in 0..size {
        lists.push(WatchList::new(alloc))?;
    }
    Ok(lists)
}

/// The lists of the literals of so many variables, no clause being watched.
pub(crate) fn watches_of(alloc: Global, vars: u32) -> Result<Watches, NoMemory>
    ensures { IfOk result (HasNone vars) }
{
    Ok(Watches {
        pairs: Vec::new(alloc),
        lists: no_lists(alloc, 2 * vars as usize + 2)?,
        gone_over: 0,
    })
}

/// Makes room for one number more in the list of a literal.
fn make_place(watches: &mut Watches, l: Lit) -> Result<(), NoMemory>
    requires { code_of l < length watches.old.lists.items }
    ensures wider { IsWider watches.old watches.new }
    ensures more { OnOk result (room_of watches.old.lists.items l + 1 ≤ room_of watches.new.lists.items l) }
{
    watches.lists[code_of(l)].make_room()
}

/// Makes room for one number more in the list of each of the literals.
fn make_places(watches: &mut Watches, literals: &[Lit]) -> Result<(), NoMemory>
    requires { HaveLists watches.old literals.now }
    ensures wider { IsWider watches.old watches.new }
    ensures more { OnOk result (HavePlaces watches.old watches.new literals.now) }
{
    for l in literals {
        make_place(watches, *l)?;
    }
    Ok(())
}

/// Makes room for a clause's number in the lists of its literals, unless it is to stand in the lists of the short clauses.
fn make_list_room(watches: &mut Watches, takes: bool, literals: &[Lit]) -> Result<(), NoMemory>
    requires { HaveLists watches.old literals.now }
    ensures wider { IsWider watches.old watches.new }
    ensures more { OnOk result ((takes && is_short literals.now) ≡ false → HavePlaces watches.old watches.new literals.now) }
{
    if is_taken(takes, literals) {
        return Ok(());
    }
    make_places(watches, literals)?;
    Ok(())
}

/// Makes room for the pairs of so many clauses and one more, which has these literals, and for its number where it is to be watched.
pub(crate) fn make_room(
    watches: &mut Watches,
    count: u32,
    takes: bool,
    literals: &[Lit],
) -> Result<(), NoMemory>
    requires { HaveLists watches.old literals.now }
    ensures wider { IsWider watches.old watches.new }
    ensures more { OnOk result ((takes && is_short literals.now) ≡ false → HavePlaces watches.old watches.new literals.now) }
    ensures pair { OnOk result (count + 1 ≤ vec_capacity watches.new.pairs) }
{
    make_list_room(watches, takes, literals)?;
    make_pairs(&mut watches.pairs, count)
}

/// Makes room for so many pairs and one more.
fn make_pairs(pairs: &mut Vec<Pair>, count: u32) -> Result<(), NoMemory>
    ensures items { pairs.new.items ≡ pairs.old.items }
    ensures capacity { vec_capacity pairs.old ≤ vec_capacity pairs.new }
    ensures room { OnOk result (count + 1 ≤ vec_capacity pairs.new) }
{
    let wanted = count as usize + 1;
    pairs.reserve(wanted.saturating_sub(pairs.len()))?;
    Ok(())
}

/// Counts no more true literals as gone over than there are.
pub(crate) fn go_back(watches: &mut Watches, count: u32)
    ensures pairs { watches.new.pairs ≡ watches.old.pairs }
    ensures lists { watches.new.lists ≡ watches.old.lists }
    ensures low { watches.new.gone_over ≤ watches.old.gone_over }
    ensures short { watches.new.gone_over ≤ count }
    ensures which { (watches.new.gone_over ≡ watches.old.gone_over) ⊎ (watches.new.gone_over ≡ count) }
{
    if count < watches.gone_over {
        watches.gone_over = count;
    }
}
