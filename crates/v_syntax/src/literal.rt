//! Numbers as they are written (IEEE 1364-2005, 3.5.1).
use loc_base::Bytes;
use std::marker::Model;
use thiserror::Error;

/// What is wrong with a number.
#[derive(Clone, Copy, Debug, Error)]
pub enum NumberFault {
    /// The base letter or the digits are missing, or a digit isn't one of the base.
    #[error("a number without its base or its digits, or with a digit that its base doesn't have")]
    Malformed,
    /// An unknown digit, or a wildcard digit in base ten.
    #[error("a number with an unknown digit, or with a wildcard digit in base ten")]
    Unknown,
    /// A size that isn't 1 to 128, or a value that is too wide.
    #[error("a number whose size isn't 1 to 128, or whose value needs more than 128 bits (32 without a base)")]
    Wide,
}

/// A number without wildcard digits, as it is written. Contracts see its bytes.
pub struct Number {
    pub text: Bytes,
}

impl Model for Number {
    ghost use Rattle.std.specs.Prelude.{List, ℕ};
    ghost use Rattle.v_syntax.specs.Literals.{IsNumber};

    ghost Value = { List ℕ };

    ghost view = { λ n. n.text };

    ghost invariant = { λ n. IsNumber n.text };
}

/// A number with wildcard digits, as it is written. Contracts see its bytes.
pub struct WildNumber {
    pub text: Bytes,
}

impl Model for WildNumber {
    ghost use Rattle.std.specs.Prelude.{List, ℕ};
    ghost use Rattle.v_syntax.specs.Literals.{IsWildNumber};

    ghost Value = { List ℕ };

    ghost view = { λ n. n.text };

    ghost invariant = { λ n. IsWildNumber n.text };
}

// Each node's `drop` is written out, so that it is proved once, here: a derived one is proved again by each crate that lets a
// node go.
impl Drop for Number {
    fn drop(self) {
        let Number { text: _ } = self;
    }
}

impl Drop for WildNumber {
    fn drop(self) {
        let WildNumber { text: _ } = self;
    }
}
