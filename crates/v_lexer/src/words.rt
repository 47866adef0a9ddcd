//! The reserved words and the system functions that are known.
ghost use Rattle.std.specs.Prelude.{◌≡◌, bytes_eq};
ghost use Rattle.std.specs.List.{list_any};
ghost use Rattle.v_lexer.specs.Words as word;

use crate::terminals::{reserved_word, system_function};

/// Whether the text is one of the words.
pub fn is_among(text: &[u8], words: &[&str]) -> bool
    ensures { result ≡ list_any (λ w. bytes_eq text.now w.now) words.now }
{
    words.iter().any(|word| text == word.as_bytes())
}

/// Whether the text is the name of a system function that is known.
#[tactic(auto, unfolding(crate::specs::Words::is_system))]
pub fn is_system(text: &[u8]) -> bool
    ensures { result ≡ word.is_system text.now }
{
    system_function(text).is_some()
}

/// Whether the text is a reserved word.
#[tactic(auto, unfolding(crate::specs::Words::is_reserved))]
pub fn is_reserved(text: &[u8]) -> bool
    ensures { result ≡ word.is_reserved text.now }
{
    reserved_word(text).is_some()
}
