//! The keyword commands of a dump (IEEE 1364-2005, 18.2.3).
ghost use Rattle.std.specs.Prelude.{◌≡◌};
ghost use Rattle.vcd_reading.specs.Commands.{command_of, is_dump as says_dump, is_end as says_end, named_command};

/// What a keyword says.
#[derive(Clone, Copy, Debug, PartialEq, Eq)]
pub enum Command {
    End,
    Comment,
    /// `$dumpvars`, `$dumpall`, `$dumpon` or `$dumpoff`.
    Dump,
    Scope,
    Upscope,
    Var,
    EndDefinitions,
    /// Any other word that begins with a `$`.
    Other,
}

/// Whether a word is `$end`.
#[tactic(auto, unfolding(crate::specs::Commands::is_end))]
pub fn is_end(word: &[u8]) -> bool
    ensures { result ≡ says_end word.now }
{
    word == b"$end".as_slice()
}

/// Whether a keyword, without its `$`, names one of the commands that only mark a group of changes.
#[tactic(auto, unfolding(crate::specs::Commands::is_dump))]
fn is_dump(keyword: &[u8]) -> bool
    ensures { result ≡ says_dump keyword.now }
{
    keyword == b"dumpvars".as_slice()
        || keyword == b"dumpall".as_slice()
        || keyword == b"dumpon".as_slice()
        || keyword == b"dumpoff".as_slice()
}

/// The command of a keyword without its `$`.
#[tactic(auto, unfolding(crate::specs::Commands::named_command))]
pub fn named_command(keyword: &[u8]) -> Command
    ensures { result ≡ named_command keyword.now }
{
    if keyword == b"end".as_slice() {
        Command::End
    } else if keyword == b"comment".as_slice() {
        Command::Comment
    } else if is_dump(keyword) {
        Command::Dump
    } else if keyword == b"scope".as_slice() {
        Command::Scope
    } else if keyword == b"upscope".as_slice() {
        Command::Upscope
    } else if keyword == b"var".as_slice() {
        Command::Var
    } else if keyword == b"enddefinitions".as_slice() {
        Command::EndDefinitions
    } else {
        Command::Other
    }
}
