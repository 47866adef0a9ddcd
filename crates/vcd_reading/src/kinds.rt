//! What the first word of a piece says of it.
ghost use Rattle.std.specs.Prelude.{◌≡◌, true, false};
ghost use Rattle.std.specs.Option.{option_map};
ghost use Rattle.vcd_reading.specs.declared.kinds.Kind.TheVariants.{Section as TheSection};
ghost use Rattle.vcd_reading.specs.Pieces.{mark_of, letter_kind, kind_of};

use crate::commands::{Command, named_command};
use crate::reals::is_real;
use vcd_words::{Level, is_level_digit, read_level, read_time};

/// What begins with a word.
#[derive(Clone, Copy, Debug, PartialEq, Eq)]
pub enum Kind {
    /// `#` and a time.
    Time(u64),
    /// The digit of a scalar change, with the code behind it in the same word.
    Scalar(Level),
    /// `b` and the digits of a vector change. The code is the next word.
    Vector(Level),
    /// `r` and the number of a real change. The code is the next word.
    Real,
    /// `s` and a text. The code is the next word.
    Text,
    /// A word that says nothing of values.
    Mark,
    /// A command with the words up to the first `$end`.
    Section(Command),
}

/// The section that a word begins in the header, by its command.
pub fn section_at(word: &[u8]) -> Option<Command>
    ensures { option_map TheSection result ≡ kind_of true word.now }
{
    match word.split_first() {
        Some((b'$', keyword)) => match named_command(keyword) {
            Command::End => None,
            command => Some(command),
        },
        _ => None,
    }
}

/// What a command begins behind the header.
fn mark_of(command: Command) -> Option<Kind>
    ensures { result ≡ mark_of command }
{
    match command {
        Command::End | Command::Dump => Some(Kind::Mark),
        Command::Comment => Some(Kind::Section(command)),
        Command::Scope | Command::Upscope | Command::Var => None,
        Command::EndDefinitions | Command::Other => None,
    }
}

/// What begins with a byte that is no digit, and the bytes behind it.
fn letter_kind(first: u8, rest: &[u8]) -> Option<Kind>
    ensures { result ≡ letter_kind first rest.now }
{
    match first {
        b'b' | b'B' => read_level(rest).map(Kind::Vector),
        b'r' | b'R' => is_real(rest).then_some(Kind::Real),
        b's' => Some(Kind::Text),
        b'$' => mark_of(named_command(rest)),
        _ => None,
    }
}

/// What a word begins behind the header.
pub fn change_at(word: &[u8]) -> Option<Kind>
    ensures { result ≡ kind_of false word.now }
{
    let (first, rest) = word.split_first()?;
    if *first == b'#' {
        read_time(rest).map(Kind::Time)
    } else if is_level_digit(*first) {
        read_level(&[*first]).map(Kind::Scalar)
    } else {
        letter_kind(*first, rest)
    }
}
