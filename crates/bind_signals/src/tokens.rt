//! Names of a scope and of loops with a token of each, found by one look into a table.
ghost use Rattle.std.specs.Prelude.{◌≡◌, ℕ, List, [], ◌∷◌, ◌||◌, ◌&&◌, map, false, nat_lt, OnOk, IfOk};
ghost use Rattle.std.specs.Option.{option_or, option_map_or};
ghost use Rattle.v_hierarchy.specs.Names.{Entry as PlainEntry, same_name};
ghost use Rattle.v_hierarchy.specs.Places.{place_in};
ghost use Rattle.v_hierarchy.specs.Views.{entry_of};
ghost use Rattle.v_binding.specs.Signals.{declared_at, hides};
ghost use Rattle.bind_signals.specs.Tables.{last_with, is_behind, HasFirsts};
ghost use Rattle.bind_signals.specs.LoopNames.{listed, is_used};

use loc_base::NoMemory;
use std::alloc::Global;
use v_hierarchy::{Entry, Places};
use v_syntax::Identifier;

/// The greater one of a token and one that is there before.
fn last_with(token: usize, before: Option<usize>) -> usize
    ensures { result ≡ last_with token before }
{
    match before {
        Some(last) => last.max(token),
        None => token,
    }
}

/// One variable more.
fn insert<'t>(variable: &'t Identifier, table: &mut Places<'t>) -> Result<(), NoMemory>
    ensures { OnOk result ((q : List ℕ) (token : ℕ) → is_behind table.new q token ≡ ((same_name variable.now.name q && nat_lt token variable.now.site.token) || is_behind table.old q token)) }
{
    let name = variable.name.as_bytes();
    let last = last_with(variable.site.token as usize, table.find(name));
    table.put(name, last)?;
    Ok(())
}

/// The last token of each name among variables of loops.
pub(crate) fn last_of_each<'t>(
    alloc: Global,
    variables: &[&'t Identifier],
) -> Result<Places<'t>, NoMemory>
    ensures { IfOk result (λ table. (q : List ℕ) (token : ℕ) → is_behind table q token ≡ is_used q (nat_lt token) (listed variables.now)) }
{
    let mut table = Places::new(alloc);
    for variable in variables {
        insert(variable, &mut table)?;
    }
    Ok(table)
}

/// One entry more, if its name is new.
fn declare<'t>(entry: &Entry<'t>, table: &mut Places<'t>) -> Result<(), NoMemory>
    ensures { OnOk result ((q : List ℕ) → place_in table.new q ≡ option_or (place_in table.old q) (declared_at q (entry_of entry.now ∷ []))) }
{
    let name = entry.name.name.as_bytes();
    match table.find(name) {
        Some(_first) => Ok(()),
        None => table.put(name, entry.name.site.token as usize),
    }
}

/// The token with which each name of a scope is first declared.
pub(crate) fn firsts_of<'t>(alloc: Global, entries: &[Entry<'t>]) -> Result<Places<'t>, NoMemory>
    ensures { IfOk result (λ table. HasFirsts table (map entry_of entries.now)) }
{
    let mut table = Places::new(alloc);
    for entry in entries {
        declare(entry, &mut table)?;
    }
    Ok(table)
}

/// Whether a scope declares the name of a variable before its token.
pub(crate) fn hides(declared: &Places<'_>, variable: &Identifier) -> bool
    ensures { (entries : List PlainEntry) → HasFirsts declared.now entries → result ≡ hides variable.now.name entries variable.now.site.token }
{
    match declared.find(variable.name.as_bytes()) {
        Some(first) => first < variable.site.token as usize,
        None => false,
    }
}

/// Whether a name has a token behind that of an integer.
pub(crate) fn is_behind(table: &Places<'_>, integer: &Identifier) -> bool
    ensures { result ≡ is_behind table.now integer.now.name integer.now.site.token }
{
    match table.find(integer.name.as_bytes()) {
        Some(last) => (integer.site.token as usize) < last,
        None => false,
    }
}
