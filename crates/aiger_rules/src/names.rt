//! The names of ports.
ghost use Rattle.std.specs.Prelude.{◌≡◌, ◌≤◌, ℕ, map, IfOk};
ghost use Rattle.aiger_text.specs.Symbols.{plain};
ghost use Rattle.aiger_text.specs.Content.{content_of};
ghost use Rattle.aiger_rules.specs.First.{place_of};
ghost use Rattle.aiger_rules.specs.Names.{AreSymbols, is_plain, plain_byte, row_below, named_row, symbol_of, own_name, row_name, port_name};

use crate::firsts::Firsts;
use aiger_text::{Content, Counts, Section, Symbol};
use itoa::Buffer;
use loc_base::{Bytes, NoMemory};
use std::alloc::Global;

/// Whether a byte is one of a plain name: a letter, a digit, `_` or `$`.
fn is_plain(byte: u8) -> bool
    ensures { result ≡ is_plain byte }
{
    b'A' <= byte && byte <= b'Z'
        || b'a' <= byte && byte <= b'z'
        || b'0' <= byte && byte <= b'9'
        || byte == b'_'
        || byte == b'$'
}

/// The byte, or `_`.
fn plain_byte(byte: u8) -> u8
    ensures { result ≡ plain_byte byte }
{
    if is_plain(byte) { byte } else { b'_' }
}

/// A position below a count, moved up by how many rows stand before.
fn row_below(before: u64, count: u32, position: u32) -> Option<u64>
    requires { before ≤ 8589934590 }
    ensures { result ≡ row_below before count position }
{
    if position < count {
        Some(before + u64::from(position))
    } else {
        None
    }
}

/// The number of the row that a symbol names, where its position is one.
pub(crate) fn named_row(counts: Counts, symbol: Symbol<'_>) -> Option<u64>
    ensures { result ≡ named_row counts (plain symbol.entry) }
{
    match symbol.section {
        Section::Inputs => row_below(0, counts.inputs, symbol.position),
        Section::Latches => row_below(u64::from(counts.inputs), counts.latches, symbol.position),
        Section::Outputs => row_below(counts.first_output(), counts.outputs, symbol.position),
        Section::Ands => None,
    }
}

/// The place of the first symbol that names each row.
#[tactic(auto, using(crate::proofs::NameSteps::symbol_steps))]
pub(crate) fn symbols_of(alloc: Global, content: &Content<'_>) -> Result<Firsts, NoMemory>
    ensures { IfOk result (AreSymbols (content_of content.now)) }
{
    let mut firsts = Firsts::new(alloc);
    for (place, symbol) in content.symbols.iter().enumerate() {
        firsts.meet(named_row(content.counts, *symbol), place)?;
    }
    Ok(firsts)
}

/// A name, plain.
#[tactic(auto, using(crate::proofs::NameSteps::plain_steps))]
fn plain_name(alloc: Global, text: &[u8]) -> Result<Bytes, NoMemory>
    ensures { IfOk result (λ name. name ≡ map plain_byte text.now) }
{
    let mut name = Bytes::new(alloc);
    for byte in text {
        name.push(plain_byte(*byte))?;
    }
    Ok(name)
}

/// The letter and the position of a port that has no symbol.
fn own_name(alloc: Global, letter: u8, position: u64) -> Result<Bytes, NoMemory>
    ensures { IfOk result (λ name. name ≡ own_name letter position) }
{
    let mut buffer = Buffer::new();
    let mut name = Bytes::new(alloc);
    name.push(letter)?;
    name.append(buffer.format(position).as_bytes())?;
    Ok(name)
}

/// The name of the port of a row that has no symbol.
fn row_name(alloc: Global, counts: Counts, row: u64) -> Result<Bytes, NoMemory>
    ensures { IfOk result (λ name. name ≡ row_name counts row) }
{
    if row < u64::from(counts.inputs) {
        own_name(alloc, b'i', row)
    } else {
        own_name(alloc, b'o', row.saturating_sub(counts.first_output()))
    }
}

/// What a text has, and the place of the first symbol that names each row.
#[derive(Clone, Copy)]
pub(crate) struct Named<'a, 't> {
    pub alloc: Global,
    pub content: &'a Content<'t>,
    pub symbols: &'a Firsts,
}

impl Named<'_, '_> {
    /// The name of the port of a row.
    #[tactic(auto, using(crate::proofs::NameSteps::port_steps))]
    pub(crate) fn port_name(&self, row: u64) -> Result<Bytes, NoMemory>
        requires { AreSymbols (content_of self.now.content.now) self.now.symbols.now }
        ensures { IfOk result (λ name. name ≡ port_name (content_of self.now.content.now) row) }
    {
        match self.symbols.find(row) {
            Some(place) => match self.content.symbols.get(place) {
                Some(symbol) => plain_name(self.alloc, symbol.text),
                None => Ok(Bytes::new(self.alloc)),
            },
            None => row_name(self.alloc, self.content.counts, row),
        }
    }
}
