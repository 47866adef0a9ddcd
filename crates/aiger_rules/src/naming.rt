//! Lines that name something wrongly.
ghost use Rattle.std.specs.Prelude.{◌≡◌, ◌≤◌, ◌&&◌, ℕ, List, true, false, All, length, slice_index, if◌then◌else◌, Some, None, IfOk, OnOk, IfErr};
ghost use Rattle.std.specs.Option.{option_copied};
ghost use Rattle.loc_base.specs.Name.{IsName};
ghost use Rattle.loc_base.specs.NameTable.{has_number};
ghost use Rattle.aiger_text.specs.Symbols.{plain};
ghost use Rattle.aiger_text.specs.Content.{content_of};
ghost use Rattle.aiger_rules.specs.Names.{AreSymbols};
ghost use Rattle.aiger_rules.specs.Ports.{left_out, port_names, symbol_line};
ghost use Rattle.aiger_rules.specs.Naming.{is_bad_symbol, is_double, is_misplaced, lesser, IsLeastOf, IsLineOf, IsNamedWell};
ghost use Rattle.aiger_rules.specs.Doubles.{is_own, met_with, AreShared, OwnDiffer};
ghost use Rattle.aiger_rules.specs.Refusals.{NamingCause};

use crate::names::{Named, named_row, symbols_of};
use crate::ports::Ports;
use aiger_text::{AigerErr, Content, Symbol};
use loc_base::{Name, NameTable, NoMemory, Rows};
use std::alloc::Global;

/// The lesser of two lines, where there are some.
fn lesser(one: Option<u64>, other: Option<u64>) -> Option<u64>
    ensures { result ≡ lesser one other }
{
    match (one, other) {
        (None, _) => other,
        (Some(_), None) => one,
        (Some(line), Some(above)) => Some(if above < line { above } else { line }),
    }
}

/// A line, where a test is true.
fn line_if(test: bool, line: u64) -> Option<u64>
    ensures { result ≡ (if test then Some line else None) }
{
    if test { Some(line) } else { None }
}

impl Named<'_, '_> {
    /// Whether the symbol at a place names no row, or one that an earlier symbol names, or has no name.
    fn is_bad_symbol(&self, place: usize, symbol: Symbol<'_>) -> bool
        requires { AreSymbols (content_of self.now.content.now) self.now.symbols.now }
        ensures { result ≡ is_bad_symbol (content_of self.now.content.now) place (plain symbol.entry) }
    {
        let misplaced = match named_row(self.content.counts, symbol) {
            Some(row) => self.symbols.find(row) != Some(place),
            None => true,
        };
        misplaced || symbol.text.is_empty()
    }

    /// The least line of a symbol that is misplaced.
    #[tactic(auto, using(crate::proofs::NamingSteps::misplaced_steps))]
    fn least_misplaced(&self) -> Option<u64>
        requires symbols { AreSymbols (content_of self.now.content.now) self.now.symbols.now }
        requires few { length self.now.content.now.symbols.items ≤ 16777216 }
        ensures { let w = content_of self.now.content.now
            in IsLeastOf (IsLineOf (is_misplaced w) (symbol_line w) (length w.symbols)) result }
    {
        let mut least = None;
        for (place, symbol) in self.content.symbols.iter().enumerate() {
            let line = self.content.counts.rows() + place as u64 + 2;
            least = lesser(least, line_if(self.is_bad_symbol(place, *symbol), line));
        }
        least
    }
}

/// Whether a line is that of a row, so that the port has no symbol. The clock's line is that of the header.
fn is_own(rows: u64, line: u64) -> bool
    requires { rows ≤ 17179869180 }
    ensures { result ≡ is_own rows line }
{
    2 <= line && line < rows + 2
}

/// Adds a name to a table, unless it is one that only its own port can have.
fn note<'a>(table: &mut NameTable<'a>, name: &'a [u8], own: bool) -> Result<(), NoMemory>
    ensures more { OnOk result ((other : List ℕ) → has_number table.old other ≡ true → has_number table.new other ≡ true) }
    ensures noted { OnOk result (own ≡ false → has_number table.new name.now ≡ true) }
{
    if own {
        return Ok(());
    }
    let _added = table.add(name, 0)?;
    Ok(())
}

/// A table with the names of ports that have symbols, and the clock's: no other names can be those of two ports.
fn shared_names<'a>(
    alloc: Global,
    names: &'a Rows<u8>,
    lines: &[u64],
    rows: u64,
) -> Result<NameTable<'a>, NoMemory>
    requires long { length lines.now ≡ length names.now }
    requires few { rows ≤ 17179869180 }
    ensures { IfOk result (AreShared rows names.now lines.now (length names.now)) }
{
    let mut table = NameTable::new(alloc);
    for place in 0..names.len() {
        note(&mut table, names.row(place), is_own(rows, lines[place]))?;
    }
    Ok(table)
}

/// Whether a name that two ports can have was met before. It is met from now on.
fn is_met_again<'a>(
    shared: &NameTable<'_>,
    met: &mut NameTable<'a>,
    name: &'a [u8],
) -> Result<bool, NoMemory>
    ensures again { IfOk result (λ again. again ≡ (has_number shared.now name.now && has_number met.old name.now)) }
    ensures met { OnOk result ((other : List ℕ) → has_number met.new other
        ≡ met_with (has_number shared.now) (has_number met.old) name.now other) }
{
    if shared.find(name).is_none() {
        return Ok(false);
    }
    let added = met.add(name, 0)?;
    Ok(!added)
}

/// The least line of a name that stands among those before it. Names that only their own ports can have are in no table.
fn least_double(
    alloc: Global,
    names: &Rows<u8>,
    lines: &[u64],
    rows: u64,
) -> Result<Option<u64>, NoMemory>
    requires long { length lines.now ≡ length names.now }
    requires few { rows ≤ 17179869180 }
    requires differ { OwnDiffer rows names.now lines.now }
    ensures { IfOk result (IsLeastOf (IsLineOf (is_double names.now) (slice_index lines.now) (length names.now))) }
{
    let shared = shared_names(alloc, names, lines, rows)?;
    let mut met = NameTable::new(alloc);
    let mut least = None;
    for place in 0..names.len() {
        let again = is_met_again(&shared, &mut met, names.row(place))?;
        least = lesser(least, line_if(again, lines[place]));
    }
    Ok(least)
}

/// The ports of a design, where all lines name something rightly; else the first line that doesn't.
#[tactic(auto, using(crate::proofs::NamingSteps::naming_steps))]
pub fn check_names(
    alloc: Global,
    content: &Content<'_>,
    clock: Option<&Name>,
) -> Result<Ports, AigerErr>
    requires { length content.now.symbols.items ≤ 16777216 }
    ensures well { IfOk result (λ _. IsNamedWell (content_of content.now) (option_copied clock.entry)) }
    ensures left_out { IfOk result (λ ports. ports.left_out ≡ left_out (content_of content.now) (option_copied clock.entry)) }
    ensures within { IfOk result (λ ports. ports.left_out ≤ content.now.counts.inputs) }
    ensures names { IfOk result (λ ports. ports.names ≡ port_names (content_of content.now) (option_copied clock.entry)) }
    ensures named { IfOk result (λ ports. All IsName ports.names) }
    ensures err { IfErr result (NamingCause (content_of content.now) (option_copied clock.entry)) }
{
    let symbols = symbols_of(alloc, content)?;
    let named = Named {
        alloc,
        content,
        symbols: &symbols,
    };
    let left_out = named.left_out(clock)?;
    let names = named.names(clock, left_out)?;
    let lines = named.lines(clock, left_out)?;
    let double = least_double(alloc, &names, &lines, content.counts.rows())?;
    match lesser(named.least_misplaced(), double) {
        Some(line) => Err(AigerErr::Naming(line)),
        None => Ok(Ports { left_out, names }),
    }
}
