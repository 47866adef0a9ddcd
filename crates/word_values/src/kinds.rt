//! The names of kinds of suspects.
ghost use Rattle.std.specs.Prelude.{◌≡◌, IfOk, map};
ghost use Rattle.std.specs.List.{list_all};
ghost use Rattle.word_values.specs.Values.{are_kinds, is_kind_byte, is_kind_name, is_once, is_one_of, kinds_in};

use crate::values::{is_once, is_one_of};
use std::alloc::{AllocError, Global};

/// The words between commas.
pub fn kinds_in(alloc: Global, word: &str) -> Result<Vec<&str>, AllocError>
    ensures { IfOk result (λ names. map (λ w. w.now) names.items ≡ kinds_in word.now) }
{
    word.split(',').collect(alloc)
}

/// Whether a word can name a kind: 1 to 32 small letters, digits and `_`.
fn is_kind_name(word: &str) -> bool
    ensures { result ≡ is_kind_name word.now }
{
    let bytes = word.as_bytes();
    !bytes.is_empty() && bytes.len() <= 32 && are_kind_bytes(bytes)
}

fn are_kind_bytes(bytes: &[u8]) -> bool
    ensures { result ≡ list_all is_kind_byte bytes.now }
{
    bytes.iter().all(|&byte| is_kind_byte(byte))
}

fn is_kind_byte(byte: u8) -> bool
    ensures { result ≡ is_kind_byte byte }
{
    (b'a' <= byte && byte <= b'z') || (b'0' <= byte && byte <= b'9') || byte == b'_'
}

fn are_kind_names(names: &[&str]) -> bool
    ensures { result ≡ list_all is_kind_name (map (λ w. w.now) names.now) }
{
    for name in names {
        if !is_kind_name(name) {
            return false;
        }
    }
    true
}

/// Whether each name is a known one.
fn are_known(names: &[&str], known: &[&str]) -> bool
    ensures { result ≡ list_all (is_one_of (map (λ w. w.now) known.now)) (map (λ w. w.now) names.now) }
{
    for name in names {
        if !is_one_of(known, name) {
            return false;
        }
    }
    true
}

/// Whether names are those of known kinds, each once.
pub fn are_kinds(names: &[&str], known: &[&str]) -> bool
    ensures { result ≡ are_kinds (map (λ w. w.now) known.now) (map (λ w. w.now) names.now) }
{
    are_kind_names(names) && are_known(names, known) && is_once(names)
}
