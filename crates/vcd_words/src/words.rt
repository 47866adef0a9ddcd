//! The words of a text, found one by one where they stand (IEEE 1364-2005, 3.2). No memory is taken, and each byte is
//! looked at once.
ghost use Rattle.std.specs.Prelude.{◌≡◌, ◌≤◌, ◌<◌, ◌+◌, ◌∷◌, [], ℕ, false, length, take, drop, slice_index, IfNone, IfSome};
ghost use Rattle.loc_base.specs.Ascii.{is_white};
ghost use Rattle.vcd_words.specs.Words.{Placed, words_at, words_left, placed, WordsStand};

use loc_base::is_white;

/// Where a word stands in a text: from the byte at `start` on, up to the one before `stop`.
#[derive(Clone, Copy, Debug, PartialEq, Eq)]
pub struct Extent {
    pub start: usize,
    pub stop: usize,
}

/// The number of bytes that are white space at the front of a text.
#[tactic(auto, using(crate::proofs::WordSteps::word_steps))]
fn white_len(text: &[u8]) -> usize
    ensures bound { result ≤ length text.now }
    ensures words { (at : ℕ) → words_at at text.now ≡ words_at (at + result) (drop result text.now) }
    ensures black { result < length text.now → is_white (slice_index text.now result) ≡ false }
{
    for (i, byte) in text.iter().enumerate() {
        if !is_white(*byte) {
            return i;
        }
    }
    text.len()
}

/// The number of bytes at the front of a text that are no white space.
#[tactic(auto, using(crate::proofs::WordSteps::word_steps))]
fn word_len(text: &[u8]) -> usize
    requires some { 0 < length text.now }
    requires black { is_white (slice_index text.now 0) ≡ false }
    ensures bound { result ≤ length text.now }
    ensures some { 0 < result }
    ensures words { (at : ℕ) → words_at at text.now ≡ (record { at = at; word = take result text.now }) ∷ words_at (at + result) (drop result text.now) }
{
    for (i, byte) in text.iter().enumerate() {
        if is_white(*byte) {
            return i;
        }
    }
    text.len()
}

/// Where the first word of a text from an offset on stands; `None` where there is none.
#[tactic(auto, using(crate::proofs::WordSteps::word_steps))]
pub fn word_at(text: &[u8], from: usize) -> Option<Extent>
    ensures none { IfNone result (words_left text.now from ≡ []) }
    ensures word { IfSome result (λ e. words_left text.now from ≡ placed text.now e.start e.stop ∷ words_left text.now e.stop) }
    ensures begins { IfSome result (λ e. from ≤ e.start) }
    ensures some { IfSome result (λ e. e.start < e.stop) }
    ensures ends { IfSome result (λ e. e.stop ≤ length text.now) }
{
    if text.len() <= from {
        return None;
    }
    let start = from + white_len(&text[from..]);
    if start == text.len() {
        return None;
    }
    let stop = start + word_len(&text[start..]);
    Some(Extent { start, stop })
}

/// The words of a text stand where they are said to stand, and no others are its words.
#[tactic(auto, using(crate::proofs::Standing::standing))]
pub fn words_stand()
    ensures { WordsStand }
{}
