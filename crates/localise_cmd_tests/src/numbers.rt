//! The numbers that words ask for; no run shows how many steps, sets and workers there may be.

use crate::same::same;
use command_words::request;
use requests::{Listing, Request};
use std::alloc::Global;
use std::test::Fail;

const KNOWN: [&str; 2] = ["stmt", "block"];

/// Words, and the numbers that they ask for.
const ASKED: [(&str, [u32; 4]); 11] = [
    ("find m.v m t.vcd", [2, 200_000, 1_000, 1]),
    (
        "find --size=8 m.v m a --suspects block,stmt b --budget 1 --sets=100000 --workers 64 --log l --report r --clock c",
        [8, 1, 100_000, 64],
    ),
    (
        "find m.v m t.vcd --size 0 --budget=10000000 --sets 1",
        [0, 10_000_000, 1, 1],
    ),
    (
        "find m.v m t.vcd --size 0000000002 --suspects block",
        [2, 200_000, 1_000, 1],
    ),
    ("find --size 1 -- m.v m --report", [1, 200_000, 1_000, 1]),
    ("check m.v m r l t.vcd", [0, 0, 0, 1]),
    ("check --workers=64 m.v m r l a b c", [0, 0, 0, 64]),
    ("check m.v m r l t --workers 1 -- --workers", [0, 0, 0, 1]),
    ("make 7", [2, 200_000, 1_000, 1]),
    (
        "make --design d --trace=t 9999 --log l --report r --size 8 --budget 1 --sets 100000 --workers 64 --suspects block,stmt",
        [8, 1, 100_000, 64],
    ),
    ("make --size=0 -- 0000000012", [0, 200_000, 1_000, 1]),
];

fn numbers_in(listing: &Listing) -> [u32; 4] {
    [listing.size, listing.budget, listing.sets, listing.workers]
}

/// The size, the budget, the number of sets and that of workers, where a command has them.
fn numbers_of(request: &Request) -> [u32; 4] {
    match request {
        Request::Find(find) => numbers_in(&find.listing),
        Request::Make(make) => numbers_in(&make.listing),
        Request::Check(check) => [0, 0, 0, check.workers],
        Request::Sim(_sim) => [0, 0, 0, 0],
        Request::Help(_help) => [0, 0, 0, 0],
    }
}

/// The words of a line, between spaces.
fn words_of(alloc: Global, line: &str) -> Result<Vec<String>, Fail> {
    let mut words = Vec::new(alloc);
    for word in line.split_whitespace() {
        words.push(String::from_str(alloc, word)?)?;
    }
    Ok(words)
}

#[test]
fn numbers_are_those_of_the_words_or_the_usual_ones(rt: HostRuntime) -> Result<(), Fail> {
    let alloc = rt.alloc();
    for (line, wanted) in &ASKED {
        let asked = request(alloc, words_of(alloc, *line)?.as_slice(), KNOWN.as_slice())?;
        same(&rt, line, &numbers_of(&asked), wanted);
    }
    Ok(())
}
