//! The values that words give to a command's arguments.
ghost use Rattle.std.specs.Prelude.{◌≡◌, IfOk, true, map, string_bytes, unwrap_or};
ghost use Rattle.std.specs.Option.{option_map};
ghost use Rattle.clap.specs.Words.{app_of as clap_app, found_of, is_simple_and_free, rows_of};
ghost use Rattle.word_values.specs.Arguments.{IsPlain, all_of, first_of, read_by, values_of};
ghost use Rattle.word_values.specs.Flags.{is_given};
ghost use Rattle.word_values.specs.Tables.{arguments_of};

use crate::table::{Table, command_of};
use clap::error::ErrorKind;
use clap::{ArgMatches, Command};
use loc_base::NoMemory;
use std::alloc::Global;
use std::marker::Model;

/// The values that words give to a command's arguments. Contracts see it as clap's rows: what is given to each argument.
pub struct Given<'a> {
    matches: ArgMatches<'a>,
}

// A `drop` is written out, so that it is proved once, here: a derived one is proved again by each crate that lets a value go.
impl Drop for Given<'_> {
    fn drop(self) {
        let Given { matches: _ } = self;
    }
}

impl<'a> Model for Given<'a> {
    ghost use Rattle.std.specs.Prelude.{List};
    ghost use Rattle.clap.specs.Words.{Row, found_of, rows_of};

    ghost Value = { List Row };

    ghost view = { λ given. rows_of (found_of given.matches) };
}

impl<'a> Given<'a> {
    /// The value of an argument.
    pub fn value(&self, id: &str) -> Option<&'a str>
        ensures { option_map (λ word. word.now) result ≡ first_of id.now self.now }
    {
        self.matches.get_str(id)
    }

    /// The value of an argument, or another where it has none.
    pub fn value_or(&self, id: &str, other: &'a str) -> &'a str
        ensures { result.now ≡ unwrap_or (first_of id.now self.now) other.entry.now }
    {
        match self.value(id) {
            Some(value) => value,
            None => other,
        }
    }

    /// Whether a flag is given.
    pub fn is_given(&self, id: &str) -> bool
        ensures { result ≡ is_given id.now self.now }
    {
        self.value_or(id, "false") == "true"
    }

    /// The values of an argument that has at least one.
    pub fn values(&self, id: &str) -> Option<&[&'a str]>
        ensures { option_map (λ words. map (λ word. word.now) words.now) result ≡ all_of id.now self.now }
    {
        self.matches.get_strs(id)
    }
}

/// The values that words give a command of clap, and `None` where they don't stand right.
#[tactic(auto, unfolding(crate::specs::Arguments::read_by))]
fn matches_of<'a>(
    command: Command<'a>,
    words: &'a [String],
) -> Result<Option<ArgMatches<'a>>, NoMemory>
    requires { is_simple_and_free (clap_app command) ≡ true }
    ensures { IfOk result (λ matches. option_map (λ m. rows_of (found_of m)) matches
        ≡ read_by (clap_app command.entry) (map string_bytes words.entry.now)) }
{
    match command.try_get_matches_from(words) {
        Ok(matches) => Ok(Some(matches)),
        Err(error) if error.kind() == ErrorKind::OutOfMemory => Err(NoMemory),
        Err(_) => Ok(None),
    }
}

/// The values that the words of a command, its name the first, give to the arguments of its table, and `None` where they don't stand
/// as it says.
pub fn given_by<'a>(
    alloc: Global,
    table: Table<'a>,
    words: &'a [String],
) -> Result<Option<Given<'a>>, NoMemory>
    requires { IsPlain (arguments_of table) }
    ensures { IfOk result (λ given. given ≡ values_of (arguments_of table.entry) (map string_bytes words.entry.now)) }
{
    match matches_of(command_of(alloc, table)?, words)? {
        Some(matches) => Ok(Some(Given { matches })),
        None => Ok(None),
    }
}
