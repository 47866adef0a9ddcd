//! What is printed of the made input.
ghost use Rattle.std.specs.Prelude.{◌≡◌, ◌++◌, IfOk, OnOk, decimal};
ghost use Rattle.made_input.specs.Made.{made_line};

use crate::numbers::{cycles, stages, width, write_number};
use loc_base::{Bytes, NoMemory};
use std::alloc::Global;

/// Appends a word and a number.
#[tactic(auto, using(crate::proofs::Pieces::pieces))]
fn write_field(text: &mut Bytes, word: &[u8], number: u32) -> Result<(), NoMemory>
    ensures { OnOk result (text.new ≡ text.old ++ (word.now ++ decimal number)) }
{
    text.append(word)?;
    write_number(text, number)?;
    Ok(())
}

/// The line that says the numbers of the made input of a number.
#[tactic(auto, using(crate::proofs::Pieces::pieces))]
pub fn made_line(alloc: Global, number: u32) -> Result<Bytes, NoMemory>
    ensures { IfOk result (λ text. text ≡ made_line number) }
{
    let mut text = Bytes::new(alloc);
    write_field(&mut text, b"made ", number)?;
    write_field(&mut text, b" stages ", stages(number))?;
    write_field(&mut text, b" width ", u32::from(width(number)))?;
    write_field(&mut text, b" cycles ", cycles(number))?;
    text.append(b"\n")?;
    Ok(text)
}
