//! The words of a run, and what standard input holds.
use crate::failure::Failure;
use std::env;
use std::io::Read;

/// The words behind the program's name.
pub(crate) fn words(rt: &HostRuntime) -> Result<Vec<String>, Failure> {
    let Ok(mut given) = env::args(rt) else {
        return Err(Failure::Words);
    };
    let _name = given.next();
    let mut words = Vec::new(rt.alloc());
    for word in given {
        words.push(word)?;
    }
    Ok(words)
}

/// What standard input holds.
pub(crate) fn input(rt: &HostRuntime) -> Result<Vec<u8>, Failure> {
    let mut bytes = Vec::new(rt.alloc());
    rt.reader().read_to_end(&mut bytes)?;
    Ok(bytes)
}
