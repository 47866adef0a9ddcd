//! The symbols of a text, and its end.
ghost use Rattle.std.specs.Prelude.{◌≡◌, ◌≤◌, map, length, IfOk, IfErr};
ghost use Rattle.aiger_text.specs.Lines.{lines};
ghost use Rattle.aiger_text.specs.Symbols.{plain};
ghost use Rattle.aiger_text.specs.Content.{HasSymbols};
ghost use Rattle.aiger_text.specs.Refusals.{IsShort};
ghost use Rattle.aiger_text.specs.Outcomes.{IsSymbolLine, SymbolsEnd};

use crate::cut::cut_at;
use crate::fault::AigerErr;
use crate::symbol::{Symbol, symbol_of};
use std::alloc::Global;

/// What the first line of the text behind the rows is.
#[derive(Clone, Copy)]
enum SymbolLine<'t> {
    /// A symbol, with the text behind it.
    Symbol { symbol: Symbol<'t>, rest: &'t [u8] },
    /// The text ends, or a line `c` stands here.
    End,
    Other,
}

/// What the first line of a text is.
#[tactic(auto, using(crate::proofs::LineSteps::symbol_line_steps))]
fn symbol_line(text: &[u8]) -> SymbolLine<'_>
    ensures { IsSymbolLine text.now result }
{
    match cut_at(text, b'\n') {
        None if text.is_empty() => SymbolLine::End,
        None => SymbolLine::Other,
        Some(cut) if cut.front == b"c".as_slice() => SymbolLine::End,
        Some(cut) => match symbol_of(cut.front) {
            Some(symbol) => SymbolLine::Symbol {
                symbol,
                rest: cut.back,
            },
            None => SymbolLine::Other,
        },
    }
}

/// The symbols of a text that stands behind the rows, from a line on.
#[tactic(auto, using(crate::proofs::SymbolSteps::symbols_steps))]
pub(crate) fn read_symbols<'t>(
    alloc: Global,
    text: &'t [u8],
    first: u64,
) -> Result<Vec<Symbol<'t>>, AigerErr>
    requires short { IsShort text.now }
    requires low { first ≤ 17179869184 }
    ensures ok { IfOk result (λ symbols. HasSymbols (lines text.entry.now) (map plain symbols.items)) }
    ensures few { IfOk result (λ symbols. length symbols.items ≤ 16777216) }
    ensures lacking { IfErr result (SymbolsEnd (lines text.entry.now) first) }
{
    let mut symbols = Vec::new(alloc);
    let mut rest = text;
    'symbols: loop {
        match symbol_line(rest) {
            SymbolLine::Symbol {
                symbol,
                rest: behind,
            } => {
                symbols.push(symbol)?;
                rest = behind;
            }
            SymbolLine::End => return Ok(symbols),
            SymbolLine::Other => return Err(AigerErr::Shape(first + symbols.len() as u64)),
        }
    }
}
