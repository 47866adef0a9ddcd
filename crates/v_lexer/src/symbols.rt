//! Symbols (IEEE 1364-2005, 3.4 and 5.1).
ghost use Rattle.std.specs.Prelude.{◌≡◌, true, if◌then◌else◌};
ghost use Rattle.v_lexer.specs.declared.pieces.Piece.TheVariants.{Symbol};
ghost use Rattle.v_syntax.specs.Bytes as class;
ghost use Rattle.v_lexer.specs.Symbols as symbol;
ghost use Rattle.v_lexer.specs.Pieces.{symbol_rest};
ghost use Rattle.v_lexer.specs.Longest.{HasFront};

use crate::bytes::first_of;

#[tactic(auto, unfolding(crate::specs::Symbols::seconds))]
fn is_double(first: u8, second: u8) -> bool
    ensures { result ≡ symbol.is_double first second }
{
    match first {
        b'*' => second == b'*',
        b'~' => second == b'&' || second == b'|' || second == b'^',
        b'^' => second == b'~',
        b'&' => second == b'&',
        b'|' => second == b'|',
        b'<' => second == b'<' || second == b'=',
        b'>' => second == b'>' || second == b'=',
        b'=' | b'!' => second == b'=',
        b'+' | b'-' => second == b':',
        _ => false,
    }
}

fn is_triple(first: u8, second: u8, third: u8) -> bool
    ensures { result ≡ symbol.is_triple first second third }
{
    (first == b'<' || first == b'>') && second == first && third == first
}

/// How many bytes stand behind the first in a symbol of at most two.
fn second_length(first: u8, second: u8) -> usize
    ensures { result ≡ if symbol.is_double first second then 1 else 0 }
{
    if is_double(first, second) { 1 } else { 0 }
}

/// How many bytes of a symbol stand behind its first.
pub fn symbol_length(first: u8, rest: &[u8]) -> usize
    requires { class.is_mark first ≡ true }
    ensures { HasFront (symbol_rest first) rest.now Symbol result }
{
    match first_of(rest) {
        None => 0,
        Some((second, tail)) => {
            let size = second_length(first, second);
            match first_of(tail) {
                None => size,
                Some((third, _)) => {
                    if is_triple(first, second, third) {
                        2
                    } else {
                        size
                    }
                }
            }
        }
    }
}
