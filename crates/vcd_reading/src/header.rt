//! The header of a dump (IEEE 1364-2005, 18.2.3).
ghost use Rattle.std.specs.Prelude.{◌≡◌, ◌≤◌, ◌<◌, ℕ, List, Some, None, IfOk, IfSome, IfNone, OnErr, length, OnOk};
ghost use Rattle.std.specs.List.{list_all};
ghost use Rattle.loc_base.specs.Ascii.{is_decimal};
ghost use Rattle.vcd_words.specs.Words.{words_left, placed};
ghost use Rattle.vcd_reading.specs.Header.{declared, up_to_bracket, no_header, with_variable, with_scope, without_scope, is_size as says_size, is_real_type as says_real_type, name_of as spec_name_of, wrong_in_var, scope_name as says_scope_name};
ghost use Rattle.vcd_reading.specs.Commands.{is_end as says_end};
ghost use Rattle.vcd_reading.specs.Pieces.{behind_end};
ghost use Rattle.vcd_reading.specs.HeaderView.{header_of};

use crate::commands::{Command, is_end};
use loc_base::{NoMemory, is_decimal};
use std::alloc::Global;
use vcd_words::{Extent, word_at};

/// A variable that a header declares, by the words of its `$var`.
#[derive(Clone, Copy)]
pub struct Variable<'a> {
    /// The number of the scope in which it stands, if any.
    pub scope: Option<usize>,
    pub type_word: &'a [u8],
    pub size: &'a [u8],
    pub code: &'a [u8],
    pub name: &'a [u8],
}

/// A scope that a header opens, by the words of its `$scope`.
#[derive(Clone, Copy)]
pub struct Opened<'a> {
    /// The number of the scope around it, if any.
    pub around: Option<usize>,
    pub name: &'a [u8],
}

/// What a header has declared.
#[derive(Drop)]
pub struct Header<'a> {
    /// In the order of the `$scope` commands.
    pub scopes: Vec<Opened<'a>>,
    /// The scope that is open, if any.
    pub current: Option<usize>,
    pub variables: Vec<Variable<'a>>,
    /// Whether the definitions have ended.
    pub ended: bool,
}

fn has_digits(word: &[u8]) -> bool
    ensures { result ≡ list_all is_decimal word.now }
{
    word.iter().all(|byte| is_decimal(*byte))
}

/// Whether a word is a size: decimal digits.
#[tactic(auto, unfolding(crate::specs::Header::is_size))]
fn is_size(word: &[u8]) -> bool
    ensures { result ≡ says_size word.now }
{
    1 <= word.len() && has_digits(word)
}

/// Whether a type word is that of a real variable.
#[tactic(auto, unfolding(crate::specs::Header::is_real_type))]
pub fn is_real_type(word: &[u8]) -> bool
    ensures { result ≡ says_real_type word.now }
{
    word == b"real".as_slice() || word == b"realtime".as_slice()
}

/// The bytes of a word up to the first `[`.
#[tactic(auto, using(crate::proofs::HeaderSteps::bracket_steps))]
fn up_to_bracket(word: &[u8]) -> &[u8]
    ensures { result.now ≡ up_to_bracket word.now }
{
    for (i, byte) in word.iter().enumerate() {
        if *byte == b'[' {
            return &word[..i];
        }
    }
    word
}

/// The name of a reference: without the backslash of an escaped name, or without the range of another.
fn name_of(reference: &[u8]) -> &[u8]
    ensures { result.now ≡ spec_name_of reference.now }
{
    match reference.split_first() {
        Some((b'\\', rest)) => rest,
        _ => up_to_bracket(reference),
    }
}

/// The bytes of a word.
pub fn bytes_at(text: &[u8], word: Extent) -> &[u8]
    requires some { word.start ≤ word.stop }
    requires within { word.stop ≤ length text.now }
    ensures { result.now ≡ (placed text.now word.start word.stop).word }
{
    &text[word.start..word.stop]
}

/// Whether a word is `$end`.
fn ends(text: &[u8], word: Extent) -> bool
    requires some { word.start ≤ word.stop }
    requires within { word.stop ≤ length text.now }
    ensures { result ≡ says_end (placed text.now word.start word.stop).word }
{
    is_end(bytes_at(text, word))
}

/// The offset of the first wrong word of a `$var`, of those from an offset on.
#[tactic(auto, unfolding(crate::specs::Header::wrong_in_var))]
pub fn wrong_in_var(text: &[u8], from: usize) -> Option<usize>
    ensures { result ≡ wrong_in_var (words_left text.now from) }
{
    let kind = word_at(text, from)?;
    if ends(text, kind) {
        return Some(kind.start);
    }
    let size = word_at(text, kind.stop)?;
    if !is_size(bytes_at(text, size)) {
        return Some(size.start);
    }
    let code = word_at(text, size.stop)?;
    if ends(text, code) {
        return Some(code.start);
    }
    let reference = word_at(text, code.stop)?;
    ends(text, reference).then_some(reference.start)
}

/// The name of a scope, by the words from an offset on: the second, where no `$end` stands before its end.
#[tactic(auto, unfolding(crate::specs::Header::scope_name))]
fn scope_name(text: &[u8], from: usize) -> &[u8]
    ensures { result.now ≡ says_scope_name (words_left text.now from) }
{
    let Some(kind) = word_at(text, from) else {
        return &[];
    };
    let Some(name) = word_at(text, kind.stop) else {
        return &[];
    };
    if ends(text, kind) || ends(text, name) {
        &[]
    } else {
        bytes_at(text, name)
    }
}

/// The offset behind the first `$end` from an offset on, where there is one.
#[tactic(auto, using(crate::proofs::HeaderSteps::end_steps))]
pub fn section_end(text: &[u8], from: usize) -> Option<usize>
    ensures none { IfNone result (behind_end (words_left text.now from) ≡ None) }
    ensures some { IfSome result (λ next. behind_end (words_left text.now from) ≡ Some (words_left text.now next)) }
    ensures later { IfSome result (λ next. from < next) }
    ensures within { IfSome result (λ next. next ≤ length text.now) }
{
    let mut at = from;
    while let Some(word) = word_at(text, at) {
        at = word.stop;
        if ends(text, word) {
            return Some(at);
        }
    }
    None
}

impl<'a> Header<'a> {
    /// A header that has declared nothing. It takes no memory.
    pub fn new(alloc: Global) -> Header<'a>
        ensures { header_of result ≡ no_header }
    {
        Header {
            scopes: Vec::new(alloc),
            current: None,
            variables: Vec::new(alloc),
            ended: false,
        }
    }

    /// Declares the variable of the `$var` whose words stand from an offset on, where they are four at least.
    fn declare_variable(&mut self, text: &'a [u8], from: usize) -> Result<(), NoMemory>
        ensures { OnOk result (header_of self.new ≡ with_variable (header_of self.old) (words_left text.now from)) }
    {
        let Some(kind) = word_at(text, from) else {
            return Ok(());
        };
        let Some(size) = word_at(text, kind.stop) else {
            return Ok(());
        };
        let Some(code) = word_at(text, size.stop) else {
            return Ok(());
        };
        let Some(reference) = word_at(text, code.stop) else {
            return Ok(());
        };
        self.variables.push(Variable {
            scope: self.current,
            type_word: bytes_at(text, kind),
            size: bytes_at(text, size),
            code: bytes_at(text, code),
            name: name_of(bytes_at(text, reference)),
        })?;
        Ok(())
    }

    /// Opens one more scope of a name in the open one.
    fn open_scope(&mut self, name: &'a [u8]) -> Result<(), NoMemory>
        ensures { OnOk result (header_of self.new ≡ with_scope (header_of self.old) name.now) }
    {
        let number = self.scopes.len();
        let around = self.current;
        self.scopes.push(Opened { around, name })?;
        self.current = Some(number);
        Ok(())
    }

    /// Closes the open scope.
    fn close_scope(&mut self)
        ensures { header_of self.new ≡ without_scope (header_of self.old) }
    {
        if let Some(scope) = self.current {
            self.current = match self.scopes.get(scope) {
                None => None,
                Some(opened) => opened.around,
            };
        }
    }

    /// Does what a section does, by its command and the words behind that.
    pub fn declare(&mut self, text: &'a [u8], command: Command, from: usize) -> Result<(), NoMemory>
        ensures { OnOk result (header_of self.new ≡ declared (header_of self.old) command (words_left text.now from)) }
    {
        match command {
            Command::Scope => self.open_scope(scope_name(text, from)),
            Command::Upscope => {
                self.close_scope();
                Ok(())
            }
            Command::Var => self.declare_variable(text, from),
            Command::EndDefinitions => {
                self.ended = true;
                Ok(())
            }
            Command::End | Command::Comment | Command::Dump | Command::Other => Ok(()),
        }
    }
}
