use clause_base::{Clause, Form, Log};

/// A step that is refused: its number, counted from 1.
#[derive(Clone, Copy, Debug, PartialEq, Eq)]
pub struct BadStep {
    pub n: u32,
}

/// A log, with the form and the blocks after which it is checked.
#[derive(Drop)]
pub struct Claim<'a> {
    pub form: &'a Form,
    pub blocks: &'a [Clause],
    pub log: &'a Log,
}

/// The steps of a log from one place up to another, and how many blocks stand before them.
#[derive(Clone, Copy)]
pub(crate) struct Piece {
    pub(crate) from: usize,
    pub(crate) end: usize,
    pub(crate) seen: usize,
}
