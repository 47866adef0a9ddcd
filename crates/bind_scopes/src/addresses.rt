//! The addresses of an array (IEEE 1364-2005, 4.9).
ghost use Rattle.std.specs.Prelude.{◌≡◌, ◌≤◌, if◌then◌else◌, int_lt, Ok, IfOk, IfErr};
ghost use Rattle.v_syntax.specs.PartTree.{range_of};
ghost use Rattle.v_sizes.specs.Selected.{count_between};
ghost use Rattle.v_binding.specs.Addresses.{addresses_at, counted};
ghost use Rattle.bind_scopes.specs.Refuses.{Refuses};
ghost use Rattle.v_binding.specs.Seen.{names_in};
ghost use Rattle.bind_scopes.specs.Addressed.{addresses_of};

use crate::expressions::index_at;
use loc_base::Span;
use v_binding::{BindErr, Names};
use v_syntax::Range;

/// The words of an array: one for each address from the least one on.
#[derive(Clone, Copy, Debug, PartialEq, Eq)]
pub struct Addresses {
    pub low: i32,
    pub count: u32,
}

/// The most words of an array.
const MOST_WORDS: u64 = 1024;

/// The most words of all arrays of a design.
const MOST_WORDS_OF_ALL: u32 = 65536;

/// The number of indexes from one bound to another, at most 2^32.
fn count_between(left: i32, right: i32) -> u64
    ensures { result ≡ count_between left right }
{
    let left = i64::from(left);
    let right = i64::from(right);
    let distance = if left < right {
        right - left
    } else {
        left - right
    };
    distance as u64 + 1
}

/// The lesser of two indexes.
fn lesser(left: i32, right: i32) -> i32
    ensures { result ≡ (if int_lt left right then left else right) }
{
    if left < right { left } else { right }
}

/// The addresses of a range, for a declaration that spans so much of the text.
pub fn addresses_at(names: &Names<'_>, span: Span, range: &Range) -> Result<Addresses, BindErr>
    ensures ok { IfOk result (λ a. addresses_at (names_in names.now) span (range_of range.now) ≡ Ok (addresses_of a)) }
    ensures err { IfErr result (λ fault. Refuses (addresses_at (names_in names.now) span (range_of range.now)) fault) }
    ensures few { IfOk result (λ a. a.count ≤ 1024) }
{
    let left = index_at(names, &range.left)?;
    let right = index_at(names, &range.right)?;
    let count = count_between(left, right);
    if count <= MOST_WORDS {
        Ok(Addresses {
            low: lesser(left, right),
            count: count as u32,
        })
    } else {
        Err(BindErr::Range(span))
    }
}

/// So many words more than before.
pub fn counted(span: Span, words: u32, more: Addresses) -> Result<u32, BindErr>
    ensures { result ≡ counted span words (addresses_of more) }
{
    match words.checked_add(more.count) {
        Some(all) if all <= MOST_WORDS_OF_ALL => Ok(all),
        _ => Err(BindErr::Range(span)),
    }
}
