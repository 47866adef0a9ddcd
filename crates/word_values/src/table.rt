//! The arguments of a command, and the command of clap that has them.
ghost use Rattle.std.specs.Prelude.{◌≡◌, IfOk, true, false, map, option_map};
ghost use Rattle.clap.specs.Words.{app_of as clap_app, with_rule, rule_of};
ghost use Rattle.word_values.specs.Arguments.{app_of, flag, one_or_more, option, required, with_each, with_rest};
ghost use Rattle.word_values.specs.Tables.{arguments_of};

use clap::{Arg, ArgAction, Command};
use loc_base::NoMemory;
use std::alloc::Global;

/// The arguments of a command.
#[derive(Clone, Copy)]
pub struct Table<'t> {
    /// The command's name, its first word.
    pub command: &'t str,
    /// The positional words behind it, each of which must stand.
    pub words: &'t [&'t str],
    /// The words behind those, at least one, where the command has such.
    pub rest: Option<&'t str>,
    /// `--NAME VALUE`, each once at most.
    pub options: &'t [&'t str],
    /// `--NAME`, each once at most.
    pub flags: &'t [&'t str],
}

fn required<'a>(alloc: Global, id: &'a str) -> Arg<'a>
    ensures rule { rule_of result ≡ required id.entry.now }
    ensures local { result.global ≡ false }
{
    Arg::new(alloc, id).required(true).action(ArgAction::Set)
}

fn one_or_more<'a>(alloc: Global, id: &'a str) -> Arg<'a>
    ensures rule { rule_of result ≡ one_or_more id.entry.now }
    ensures local { result.global ≡ false }
{
    Arg::new(alloc, id).required(true).action(ArgAction::Append)
}

fn option<'a>(alloc: Global, id: &'a str) -> Arg<'a>
    ensures rule { rule_of result ≡ option id.entry.now }
    ensures local { result.global ≡ false }
{
    Arg::new(alloc, id).long(id).action(ArgAction::Set)
}

fn flag<'a>(alloc: Global, id: &'a str) -> Arg<'a>
    ensures rule { rule_of result ≡ flag id.entry.now }
    ensures local { result.global ≡ false }
{
    Arg::new(alloc, id).long(id).action(ArgAction::SetTrue)
}

/// A command with one more argument.
fn with<'a>(command: Command<'a>, arg: Arg<'a>) -> Result<Command<'a>, NoMemory>
    requires { arg.global ≡ false }
    ensures { IfOk result (λ c. clap_app c ≡ with_rule (clap_app command.entry) (rule_of arg.entry)) }
{
    Ok(command.arg(arg)?)
}

fn with_words<'a>(
    alloc: Global,
    command: Command<'a>,
    ids: &'a [&'a str],
) -> Result<Command<'a>, NoMemory>
    ensures { IfOk result (λ c. clap_app c ≡ with_each required (clap_app command.entry) (map (λ w. w.now) ids.entry.now)) }
{
    let mut command = command;
    for id in ids {
        command = with(command, required(alloc, id))?;
    }
    Ok(command)
}

fn with_options<'a>(
    alloc: Global,
    command: Command<'a>,
    ids: &'a [&'a str],
) -> Result<Command<'a>, NoMemory>
    ensures { IfOk result (λ c. clap_app c ≡ with_each option (clap_app command.entry) (map (λ w. w.now) ids.entry.now)) }
{
    let mut command = command;
    for id in ids {
        command = with(command, option(alloc, id))?;
    }
    Ok(command)
}

fn with_flags<'a>(
    alloc: Global,
    command: Command<'a>,
    ids: &'a [&'a str],
) -> Result<Command<'a>, NoMemory>
    ensures { IfOk result (λ c. clap_app c ≡ with_each flag (clap_app command.entry) (map (λ w. w.now) ids.entry.now)) }
{
    let mut command = command;
    for id in ids {
        command = with(command, flag(alloc, id))?;
    }
    Ok(command)
}

fn with_last<'a>(
    alloc: Global,
    command: Command<'a>,
    id: Option<&'a str>,
) -> Result<Command<'a>, NoMemory>
    ensures { IfOk result (λ c. clap_app c ≡ with_rest (clap_app command.entry) (option_map (λ w. w.now) id.entry)) }
{
    match id {
        Some(id) => with(command, one_or_more(alloc, id)),
        None => Ok(command),
    }
}

/// The command of clap with the arguments of a table.
pub(crate) fn command_of<'a>(alloc: Global, table: Table<'a>) -> Result<Command<'a>, NoMemory>
    ensures { IfOk result (λ c. clap_app c ≡ app_of (arguments_of table.entry)) }
{
    let command = with_words(alloc, Command::new(alloc, table.command), table.words)?;
    let command = with_last(alloc, command, table.rest)?;
    let command = with_options(alloc, command, table.options)?;
    with_flags(alloc, command, table.flags)
}
