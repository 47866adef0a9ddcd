//! What a text has.
ghost use Rattle.std.specs.Prelude.{◌≡◌, ◌≤◌, length, IfOk, IfErr};
ghost use Rattle.aiger_text.specs.Lines.{lines};
ghost use Rattle.aiger_text.specs.Content.{content_of, IsBehind, IsWritten};
ghost use Rattle.aiger_text.specs.Refusals.{IsShort, TextCause};
ghost use Rattle.aiger_text.specs.Outcomes.{LacksLine};

use crate::cut::cut_at;
use crate::fault::AigerErr;
use crate::header::header_of;
use crate::row::{Counts, Row};
use crate::rows::read_rows;
use crate::symbol::Symbol;
use crate::symbols::read_symbols;
use std::alloc::Global;

/// The most bytes of a text.
const MOST_BYTES: usize = 16_777_216;

/// What a text has. The names of symbols are parts of the text.
#[derive(Debug)]
pub struct Content<'t> {
    pub counts: Counts,
    pub rows: Vec<Row>,
    pub symbols: Vec<Symbol<'t>>,
}

// A `drop` is written out, so that it is proved once, here: a derived one is proved again by each crate that lets a value go.
impl<'t> Drop for Content<'t> {
    fn drop(self) {
        let Content {
            counts: _,
            rows: _,
            symbols: _,
        } = self;
    }
}

/// What a text has whose header was read, the text behind it being given.
#[tactic(auto, using(crate::proofs::ContentSteps::behind_steps))]
fn behind_header<'t>(alloc: Global, counts: Counts, text: &'t [u8]) -> Result<Content<'t>, AigerErr>
    requires { IsShort text.now }
    ensures counts { IfOk result (λ content. content.counts ≡ counts) }
    ensures ok { IfOk result (λ content. IsBehind (lines text.entry.now) (content_of content)) }
    ensures few { IfOk result (λ content. length content.rows.items ≤ 17179869180) }
    ensures named { IfOk result (λ content. length content.symbols.items ≤ 16777216) }
    ensures err { IfErr result (LacksLine (lines text.entry.now) counts) }
{
    let read = read_rows(alloc, text, counts)?;
    let symbols = read_symbols(alloc, read.rest, counts.rows() + 2)?;
    Ok(Content {
        counts,
        rows: read.rows,
        symbols,
    })
}

/// What a text has: its header, its rows and its symbols, or the first of its lines that isn't of its shape.
#[tactic(auto, using(crate::proofs::ContentSteps::content_steps))]
pub fn read_content<'t>(alloc: Global, text: &'t [u8]) -> Result<Content<'t>, AigerErr>
    ensures short { IfOk result (λ _. IsShort text.entry.now) }
    ensures ok { IfOk result (λ content. IsWritten text.entry.now (content_of content)) }
    ensures few { IfOk result (λ content. length content.rows.items ≤ 17179869180) }
    ensures named { IfOk result (λ content. length content.symbols.items ≤ 16777216) }
    ensures err { IfErr result (TextCause text.entry.now) }
{
    if MOST_BYTES < text.len() {
        return Err(AigerErr::TooLong);
    }
    let Some(cut) = cut_at(text, b'\n') else {
        return Err(AigerErr::Header);
    };
    let mut numbers = Vec::new(alloc);
    match header_of(cut.front, &mut numbers)? {
        Some(counts) => {
            let content = behind_header(alloc, counts, cut.back)?;
            Ok(content)
        }
        None => Err(AigerErr::Header),
    }
}
