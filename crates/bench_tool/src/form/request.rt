//! What the words behind `form` ask for.
use crate::failure::Failure;
use loc_base::Name;
use std::alloc::Global;

/// A form: the greatest size of a set, the kinds of suspects, the clock, the names of the texts and of the top.
#[derive(Drop)]
pub(crate) struct Request {
    /// Whether the numbers and the times alone are printed.
    pub counts: bool,
    pub size: u32,
    pub kinds: Vec<Name>,
    pub clock: Option<Name>,
    pub design: String,
    pub top: Name,
    pub traces: Vec<String>,
}

/// The name that a word is.
fn name_of(alloc: Global, word: &str) -> Result<Name, Failure> {
    match Name::new(alloc, word.as_bytes())? {
        Some(name) => Ok(name),
        None => Err(Failure::Words),
    }
}

/// The names between commas.
fn names_of(alloc: Global, word: &str) -> Result<Vec<Name>, Failure> {
    let mut names = Vec::new(alloc);
    for part in word.split(',') {
        names.push(name_of(alloc, part)?)?;
    }
    Ok(names)
}

/// The clock's name, none for `-`.
fn clock_of(alloc: Global, word: &str) -> Result<Option<Name>, Failure> {
    if word == "-" {
        return Ok(None);
    }
    Ok(Some(name_of(alloc, word)?))
}

/// A size from 0 to 8.
fn size_of(word: &str) -> Result<u32, Failure> {
    match word.parse::<u32>() {
        Ok(size) if size <= 8 => Ok(size),
        _ => Err(Failure::Words),
    }
}

/// Copies of words.
fn copies(alloc: Global, words: &[String]) -> Result<Vec<String>, Failure> {
    let mut copies = Vec::new(alloc);
    for word in words {
        copies.push(String::from_str(alloc, word.as_str())?)?;
    }
    Ok(copies)
}

/// What the words ask for.
pub(crate) fn read_request(alloc: Global, words: &[String]) -> Result<Request, Failure> {
    let [shown, size, kinds, clock, design, top, traces @ ..] = words else {
        return Err(Failure::Words);
    };
    Ok(Request {
        counts: shown.as_str() == "counts",
        size: size_of(size.as_str())?,
        kinds: names_of(alloc, kinds.as_str())?,
        clock: clock_of(alloc, clock.as_str())?,
        design: String::from_str(alloc, design.as_str())?,
        top: name_of(alloc, top.as_str())?,
        traces: copies(alloc, traces)?,
    })
}
