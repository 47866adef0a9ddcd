//! A symbol.
ghost use Rattle.std.specs.Prelude.{◌≡◌, None, Some, IfNone, IfSome};
ghost use Rattle.aiger_text.specs.Symbols.{plain, section_of, symbol_in};

use crate::cut::cut_at;
use crate::numbers::number;
use crate::row::Section;

/// A symbol: what it names, by section and position, and the name.
#[derive(Clone, Copy, Debug)]
pub struct Symbol<'t> {
    pub section: Section,
    pub position: u32,
    pub text: &'t [u8],
}

/// The section that a letter names.
fn section_of(letter: u8) -> Option<Section>
    ensures { result ≡ section_of letter }
{
    match letter {
        b'i' => Some(Section::Inputs),
        b'l' => Some(Section::Latches),
        b'o' => Some(Section::Outputs),
        _ => None,
    }
}

/// The symbol that a line is.
pub(crate) fn symbol_of(line: &[u8]) -> Option<Symbol<'_>>
    ensures none { IfNone result (symbol_in line.now ≡ None) }
    ensures some { IfSome result (λ symbol. symbol_in line.now ≡ Some (plain symbol)) }
{
    if line.is_empty() {
        return None;
    }
    let cut = cut_at(&line[1..], b' ')?;
    Some(Symbol {
        section: section_of(line[0])?,
        position: number(cut.front)?,
        text: cut.back,
    })
}
