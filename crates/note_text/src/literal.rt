//! Values as literals of Verilog.
ghost use Rattle.std.specs.Prelude.{◌≡◌, ◌++◌, OnOk};
ghost use Rattle.loc_base.specs.Bits.{value_of, width_of};
ghost use Rattle.note_text.specs.Texts.{literal_text};

use loc_base::{Bits, NoMemory};
use printed_text::{push_bytes, push_number, push_value};

/// Appends a value as a literal in base 16, with its width (IEEE 1364-2005, 3.5.1): `8'h1f`.
pub(crate) fn push_literal(text: &mut Vec<u8>, word: Bits) -> Result<(), NoMemory>
    ensures { OnOk result (text.new.items ≡ text.old.items ++ literal_text (width_of word) (value_of word)) }
{
    push_number(text, u64::from(word.width()))?;
    push_bytes(text, b"'h")?;
    push_value(text, word)
}
