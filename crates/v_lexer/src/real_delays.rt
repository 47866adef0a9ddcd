//! A real number behind the `#` of a delay (IEEE 1364-2005, 3.5.2 and A.8.7).
ghost use Rattle.std.specs.Prelude.{◌≡◌, MatchOption};
ghost use Rattle.std.specs.List.{prefix_len};
ghost use Rattle.v_lexer.specs.declared.pieces.Piece.TheVariants.{RealDelay};
ghost use Rattle.v_lexer.specs.Longest.{HasFront, HasNoFront};
ghost use Rattle.v_lexer.specs.Pieces.{hash_rest, if_all};
ghost use Rattle.v_lexer.specs.RealDelays as real;
ghost use Rattle.v_syntax.specs.Numbers as shape;

use crate::bytes::{behind, first_of, is_decimal};
use crate::numbers::decimal_run;
use crate::pieces::Piece;

#[tactic(auto, unfolding(crate::specs::RealDelays::is_exponent_mark))]
fn is_exponent_mark(byte: u8) -> bool
    ensures { result ≡ real.is_exponent_mark byte }
{
    matches!(byte, b'e' | b'E')
}

#[tactic(auto, unfolding(crate::specs::RealDelays::is_plus_or_minus))]
fn is_plus_or_minus(byte: u8) -> bool
    ensures { result ≡ real.is_plus_or_minus byte }
{
    matches!(byte, b'+' | b'-')
}

/// Behind the sign of an exponent.
#[tactic(auto, using(crate::proofs::RealRows::power_rows))]
fn power_length(rest: &[u8]) -> Option<usize>
    ensures { MatchOption result (HasNoFront (if_all real.is_power RealDelay) rest.now) (HasFront (if_all real.is_power RealDelay) rest.now RealDelay) }
{
    match first_of(rest) {
        None => None,
        Some((byte, tail)) => {
            if is_decimal(byte) {
                Some(1 + decimal_run(tail))
            } else {
                None
            }
        }
    }
}

/// Behind the letter of an exponent.
#[tactic(auto, using(crate::proofs::RealRows::exponent_rows))]
fn exponent_length(rest: &[u8]) -> Option<usize>
    ensures { MatchOption result (HasNoFront (if_all real.is_exponent RealDelay) rest.now) (HasFront (if_all real.is_exponent RealDelay) rest.now RealDelay) }
{
    match first_of(rest) {
        None => None,
        Some((byte, tail)) => {
            if is_plus_or_minus(byte) {
                match power_length(tail) {
                    Some(size) => Some(1 + size),
                    None => None,
                }
            } else if is_decimal(byte) {
                Some(1 + decimal_run(tail))
            } else {
                None
            }
        }
    }
}

/// Behind the digits of a fraction.
#[tactic(auto, using(crate::proofs::RealRows::fraction_end_rows))]
fn fraction_end_length(rest: &[u8]) -> usize
    requires { prefix_len shape.is_decimal_or_underscore rest.now ≡ 0 }
    ensures { HasFront (if_all real.is_fraction_rest RealDelay) rest.now RealDelay result }
{
    match first_of(rest) {
        None => 0,
        Some((byte, tail)) => {
            if is_exponent_mark(byte) {
                match exponent_length(tail) {
                    Some(size) => 1 + size,
                    None => 0,
                }
            } else {
                0
            }
        }
    }
}

/// Behind the first digit of a fraction.
#[tactic(auto, using(crate::proofs::RealRows::run_rows))]
fn fraction_rest_length(rest: &[u8]) -> usize
    ensures { HasFront (if_all real.is_fraction_rest RealDelay) rest.now RealDelay result }
{
    let digits = decimal_run(rest);
    digits + fraction_end_length(behind(rest, digits))
}

/// Behind the point.
#[tactic(auto, using(crate::proofs::RealRows::fraction_rows))]
fn fraction_length(rest: &[u8]) -> Option<usize>
    ensures { MatchOption result (HasNoFront (if_all real.is_fraction RealDelay) rest.now) (HasFront (if_all real.is_fraction RealDelay) rest.now RealDelay) }
{
    match first_of(rest) {
        None => None,
        Some((byte, tail)) => {
            if is_decimal(byte) {
                Some(1 + fraction_rest_length(tail))
            } else {
                None
            }
        }
    }
}

/// Behind the digits before the point.
#[tactic(auto, using(crate::proofs::RealRows::real_end_rows))]
fn real_end_length(rest: &[u8]) -> Option<usize>
    requires { prefix_len shape.is_decimal_or_underscore rest.now ≡ 0 }
    ensures { MatchOption result (HasNoFront (if_all real.is_real_rest RealDelay) rest.now) (HasFront (if_all real.is_real_rest RealDelay) rest.now RealDelay) }
{
    match first_of(rest) {
        None => None,
        Some((byte, tail)) => {
            if byte == b'.' {
                match fraction_length(tail) {
                    Some(size) => Some(1 + size),
                    None => None,
                }
            } else if is_exponent_mark(byte) {
                match exponent_length(tail) {
                    Some(size) => Some(1 + size),
                    None => None,
                }
            } else {
                None
            }
        }
    }
}

/// Behind the first digit.
#[tactic(auto, using(crate::proofs::RealRows::run_rows))]
fn real_rest_length(rest: &[u8]) -> Option<usize>
    ensures { MatchOption result (HasNoFront (if_all real.is_real_rest RealDelay) rest.now) (HasFront (if_all real.is_real_rest RealDelay) rest.now RealDelay) }
{
    let digits = decimal_run(rest);
    match real_end_length(behind(rest, digits)) {
        Some(size) => Some(digits + size),
        None => None,
    }
}

/// Behind a `#`: a real number, or nothing.
#[tactic(auto, using(crate::proofs::RealRows::hash_rows))]
pub fn hash_piece(rest: &[u8]) -> (Piece, usize)
    ensures { HasFront hash_rest rest.now result.0 result.1 }
{
    match first_of(rest) {
        None => (Piece::Symbol, 0),
        Some((byte, tail)) => {
            if is_decimal(byte) {
                match real_rest_length(tail) {
                    Some(size) => (Piece::RealDelay, 1 + size),
                    None => (Piece::Symbol, 0),
                }
            } else {
                (Piece::Symbol, 0)
            }
        }
    }
}
