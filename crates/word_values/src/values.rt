//! What the values of arguments mean.
ghost use Rattle.std.specs.Prelude.{◌≡◌, ◌≤◌, IfOk, IfSome, true, codes, map, nat_eq, string_bytes};
ghost use Rattle.std.specs.List.{list_all, list_any, starts_with};
ghost use Rattle.std.specs.Option.{option_map};
ghost use Rattle.word_values.specs.Values.{is_file_byte, is_file_name, is_name, is_numeral, is_once, is_one_of, number_from, number_of, option_all};
ghost use Rattle.loc_base.specs.Ascii.{is_decimal, is_visible};

use loc_base::{Name, NoMemory, is_decimal, is_visible};
use std::alloc::Global;

/// The number that a word of 1 to 10 decimal digits writes, where it is at most `most`.
fn number_of(word: &str, most: u32) -> Option<u32>
    ensures number { result ≡ number_of most word.now }
    ensures most { IfSome result (λ number. number ≤ most) }
{
    if !is_numeral(word) {
        return None;
    }
    let Ok(number) = word.parse::<u32>() else {
        return None;
    };
    if number <= most { Some(number) } else { None }
}

/// The number that a word of 1 to 10 decimal digits writes, where it is from `least` to `most`.
pub fn number_from(word: &str, least: u32, most: u32) -> Option<u32>
    ensures number { result ≡ number_from least most word.now }
    ensures range { IfSome result (λ number. (least ≤ number) × (number ≤ most)) }
{
    match number_of(word, most) {
        Some(number) if least <= number => Some(number),
        Some(_) | None => None,
    }
}

/// Whether a word is 1 to 10 decimal digits.
fn is_numeral(word: &str) -> bool
    ensures { result ≡ is_numeral word.now }
{
    let digits = word.as_bytes();
    !digits.is_empty() && digits.len() <= 10 && are_decimal(digits)
}

fn are_decimal(bytes: &[u8]) -> bool
    ensures { result ≡ list_all is_decimal bytes.now }
{
    bytes.iter().all(|&byte| is_decimal(byte))
}

/// Whether a word can name a file: 1 to 4,096 bytes, none of them a control character.
pub fn is_file_name(word: &str) -> bool
    ensures { result ≡ is_file_name word.now }
{
    let bytes = word.as_bytes();
    !bytes.is_empty() && bytes.len() <= 4096 && are_file_bytes(bytes)
}

fn are_file_bytes(bytes: &[u8]) -> bool
    ensures { result ≡ list_all is_file_byte bytes.now }
{
    bytes.iter().all(|&byte| byte >= 32 && byte != 127)
}

pub fn are_file_names(words: &[&str]) -> bool
    ensures { result ≡ list_all is_file_name (map (λ w. w.now) words.now) }
{
    for word in words {
        if !is_file_name(word) {
            return false;
        }
    }
    true
}

/// Whether a word can name a module or a signal: at least one byte, each printable ASCII other than the space.
pub fn is_name(word: &str) -> bool
    ensures { result ≡ is_name word.now }
{
    let bytes = word.as_bytes();
    !bytes.is_empty() && are_visible(bytes)
}

fn are_visible(bytes: &[u8]) -> bool
    ensures { result ≡ list_all is_visible bytes.now }
{
    bytes.iter().all(|&byte| is_visible(byte))
}

/// The name that a word is.
pub fn name_of(alloc: Global, word: &str) -> Result<Name, NoMemory>
    requires { is_name word.now ≡ true }
    ensures { IfOk result (λ name. name ≡ word.now) }
{
    Ok(Name::new(alloc, word.as_bytes())?.unwrap())
}

/// Whether a word is a name, where there is one.
pub fn is_name_if(word: Option<&str>) -> bool
    ensures { result ≡ option_all is_name (option_map (λ w. w.now) word.entry) }
{
    match word {
        Some(word) => is_name(word),
        None => true,
    }
}

/// The name that a word is, where there is one.
pub fn name_if(alloc: Global, word: Option<&str>) -> Result<Option<Name>, NoMemory>
    requires { option_all is_name (option_map (λ w. w.now) word) ≡ true }
    ensures { IfOk result (λ name. name ≡ option_map (λ w. w.now) word.entry) }
{
    match word {
        Some(word) => Ok(Some(name_of(alloc, word)?)),
        None => Ok(None),
    }
}

/// A copy of a word, where there is one.
pub fn text_if(alloc: Global, word: Option<&str>) -> Result<Option<String>, NoMemory>
    ensures { IfOk result (λ text. option_map string_bytes text ≡ option_map (λ w. w.now) word.entry) }
{
    match word {
        Some(word) => Ok(Some(String::from_str(alloc, word)?)),
        None => Ok(None),
    }
}

/// The texts of words.
pub fn copies_of(alloc: Global, words: &[&str]) -> Result<Vec<String>, NoMemory>
    ensures { IfOk result (λ texts. map string_bytes texts.items ≡ map (λ w. w.now) words.now) }
{
    let mut texts = Vec::new(alloc);
    for word in words {
        texts.push(String::from_str(alloc, word)?)?;
    }
    Ok(texts)
}

/// The names that words are.
pub fn names_of(alloc: Global, words: &[&str]) -> Result<Vec<Name>, NoMemory>
    requires { list_all is_name (map (λ w. w.now) words.now) ≡ true }
    ensures { IfOk result (λ names. names.items ≡ map (λ w. w.now) words.now) }
{
    let mut names = Vec::new(alloc);
    for word in words {
        names.push(name_of(alloc, word)?)?;
    }
    Ok(names)
}

/// Whether a word is one of some.
pub fn is_one_of(words: &[&str], word: &str) -> bool
    ensures { result ≡ is_one_of (map (λ w. w.now) words.now) word.now }
{
    for other in words {
        if word == *other {
            return true;
        }
    }
    false
}

/// Whether no word stands twice.
pub fn is_once(words: &[&str]) -> bool
    ensures { result ≡ is_once (map (λ w. w.now) words.now) }
{
    for at in 0..words.len() {
        if is_one_of(&words[at + 1..], words[at]) {
            return false;
        }
    }
    true
}
