//! The header of a dump, read section by section (IEEE 1364-2005, 18.2.3).
ghost use Rattle.std.specs.Prelude.{◌≡◌, ◌≤◌, ◌<◌, ℕ, List, [], Some, Ok, Err, false, IfOk, IfErr, length};
ghost use Rattle.vcd_words.specs.Words.{words_left, placed};
ghost use Rattle.vcd_reading.specs.Header.{declared, wrong_in};
ghost use Rattle.vcd_reading.specs.HeaderView.{header_of};
ghost use Rattle.vcd_reading.specs.Pieces.{behind_end};
ghost use Rattle.vcd_reading.specs.Scopes.{Sought};
ghost use Rattle.vcd_reading.specs.Reading.{step, step_inside, step_behind, ReadsText};
ghost use Rattle.vcd_reading.specs.Outcomes.{Turns, IsAt, ReadsOn, begun};

use crate::commands::Command;
use crate::error::VcdErr;
use crate::header::{Header, bytes_at, section_end, wrong_in_var};
use crate::kinds::section_at;
use std::alloc::Global;
use vcd_words::{Extent, word_at};

/// The offset of the first wrong word of a section, of those behind its command.
fn wrong_in(text: &[u8], command: Command, from: usize) -> Option<usize>
    ensures { result ≡ wrong_in command (words_left text.now from) }
{
    match command {
        Command::Var => wrong_in_var(text, from),
        Command::Scope | Command::Upscope | Command::EndDefinitions => None,
        Command::End | Command::Comment | Command::Dump | Command::Other => None,
    }
}

/// Reads a section from the words behind its command on, and answers the offset behind its `$end`.
fn section<'a>(
    header: &mut Header<'a>,
    text: &'a [u8],
    command: Command,
    from: usize,
) -> Result<usize, VcdErr>
    ensures turns { let words = words_left text.now from in
        Turns text.now (step_inside (wrong_in command words) (step_behind (length text.now) (behind_end words) (Ok (begun (declared (header_of header.old) command words))))) result (begun (header_of header.new)) }
    ensures later { IfOk result (λ next. from < next) }
    ensures within { IfOk result (λ next. next ≤ length text.now) }
{
    if let Some(offset) = wrong_in(text, command, from) {
        return Err(VcdErr::Syntax { offset });
    }
    let Some(next) = section_end(text, from) else {
        return Err(VcdErr::Syntax { offset: text.len() });
    };
    header.declare(text, command, from)?;
    Ok(next)
}

/// Reads the section that a word begins.
fn piece<'a>(header: &mut Header<'a>, text: &'a [u8], word: Extent) -> Result<usize, VcdErr>
    requires open { header.old.ended ≡ false }
    requires some { word.start ≤ word.stop }
    requires inside { word.stop ≤ length text.now }
    ensures turns { (sought : Sought) → Turns text.now (step sought (length text.now) (begun (header_of header.old)) (placed text.now word.start word.stop) (words_left text.now word.stop)) result (begun (header_of header.new)) }
    ensures later { IfOk result (λ next. word.stop < next) }
    ensures within { IfOk result (λ next. next ≤ length text.now) }
{
    match section_at(bytes_at(text, word)) {
        Some(command) => section(header, text, command, word.stop),
        None => Err(VcdErr::Syntax { offset: word.start }),
    }
}

/// The header of a text, and the offset behind it.
#[derive(Drop)]
pub struct Front<'a> {
    pub header: Header<'a>,
    pub stop: usize,
}

/// Reads a header up to the end of its definitions, or of the text.
pub fn read_header<'a>(alloc: Global, text: &'a [u8]) -> Result<Front<'a>, VcdErr>
    ensures reads { IfOk result (λ front. (sought : Sought) → ReadsOn sought text.now (begun (header_of front.header)) front.stop) }
    ensures open { IfOk result (λ front. front.header.ended ≡ false → words_left text.now front.stop ≡ []) }
    ensures fault { IfErr result (IsAt (λ at. (sought : Sought) → ReadsText sought text.now (Err at))) }
{
    let mut header = Header::new(alloc);
    let mut stop = 0usize;
    while !header.ended {
        let Some(word) = word_at(text, stop) else {
            break;
        };
        stop = piece(&mut header, text, word)?;
    }
    Ok(Front { header, stop })
}
