//! A run of the program, by the arguments that the system gives.
ghost use Rattle.std.specs.Prelude.{◌≡◌, ◌∷◌, [], ◌&&◌, IfOk, codes, drop, map, option_map, string_bytes};
ghost use Rattle.std.specs.Result.{result_ok};
ghost use Rattle.command_contract.specs.Contract.{counts_of, run_of};
ghost use Rattle.suspect_map.specs.Choose.{joined};
ghost use Rattle.localise_cmd.specs.Commands.{tools_of};
ghost use Rattle.localise_cmd.specs.Given.{AreWords, KeepsGiven};
ghost use Rattle.localise_cmd.specs.Formats.{HasError, means_by};

use crate::run::run_words;
use io_ports::{Shelf, Sink};
use loc_base::Gate;
use refusal::{LastLine, Notes};
use std::alloc::{AllocError, Global};
use std::env::Env;
use std::io;
use std::io::ErrorKind;
use std::thread::Threads;
use suspect_map::Granularity;

/// The first word behind the program's name, where it is UTF-8 and not longer than any command, and else the empty one.
fn first_word<E: Env>(env: &E, alloc: Global) -> Result<String, AllocError> {
    let mut room = [0u8; 16];
    let Ok(length) = env.arg(1, &mut room) else {
        return Ok(String::new(alloc));
    };
    String::from_str(alloc, str::from_utf8(&room[..length]).unwrap_or(""))
}

/// A word and `--`: where it is a command, or asks for a page, it lacks what stands behind it.
fn word_alone(alloc: Global, word: String) -> Result<Vec<String>, AllocError>
    ensures { IfOk result (λ words. drop 1 (map string_bytes words.items) ≡ codes "--" ∷ []) }
{
    let mut words = Vec::new(alloc);
    words.push(word)?;
    words.push(String::from_str(alloc, "--")?)?;
    Ok(words)
}

/// The words behind the program's name.
fn behind_name(mut arguments: Vec<String>) -> Vec<String>
    ensures { result.items ≡ drop 1 arguments.items }
{
    if !arguments.is_empty() {
        let _name = arguments.remove(0);
    }
    arguments
}

/// The words of a run whose arguments can't be given: they ask for nothing, as the first word alone does.
fn words_for<E: Env>(env: &E, alloc: Global, error: &io::Error) -> Result<Vec<String>, AllocError>
    ensures { IfOk result (λ words. drop 1 (map string_bytes words.items) ≡ codes "--" ∷ []) }
{
    if error.kind() == ErrorKind::InvalidData {
        word_alone(alloc, first_word(env, alloc)?)
    } else {
        Err(AllocError)
    }
}

/// The words of a run that is given these arguments.
fn words_of<E: Env>(
    env: &E,
    alloc: Global,
    given: io::Result<Vec<String>>,
) -> Result<Vec<String>, AllocError>
    ensures { IfOk result (λ words. AreWords (option_map (λ arguments. map string_bytes arguments.items) (result_ok given))
        (map string_bytes words.items)) }
{
    match given {
        Ok(arguments) => Ok(behind_name(arguments)),
        Err(error) => words_for(env, alloc, &error),
    }
}

/// Carries out the arguments that the system gives, the first of which is the program's name, and answers the status of the program, as
/// `run_words` does for the words behind that name.
///
/// Where they aren't all UTF-8 the status is 2, with `usage command` where the first word is no command, and else `usage words`.
pub fn run_program<R: Env + Threads + Sync, S: Shelf, O: Sink, G: Gate + Sync, N: Notes>(
    rt: &R,
    alloc: Global,
    given: io::Result<Vec<String>>,
    kinds: &[Box<dyn Granularity>],
    shelf: &mut S,
    out: &mut O,
    notes: &mut N,
    gate: &G,
) -> u8
    ensures { KeepsGiven (tools_of means_by HasError (map (λ kind. called kind) kinds.now)
        (joined (λ kind. called kind) (λ kind. lists kind) kinds.now))
        (option_map (λ arguments. map string_bytes arguments.items) (result_ok given))
        (run_of (S.tells shelf.old && O.tells out.old) (S.texts shelf.old) (S.written shelf.old) (S.written shelf.new)
        (O.written out.old) (O.written out.new)
        (counts_of (S.faults shelf.old) (S.faults shelf.new) (O.faults out.old) (O.faults out.new)))
        result }
{
    match words_of(rt, alloc, given) {
        Ok(words) => run_words(rt, alloc, words.as_slice(), kinds, shelf, out, notes, gate),
        Err(AllocError) => LastLine::Memory.print(out),
    }
}
