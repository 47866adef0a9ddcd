//! A text cut at its first byte of a kind.
ghost use Rattle.std.specs.Prelude.{◌≡◌, ◌==◌, ◌≤◌, ◌<◌, length, None, Some, IfNone, IfSome};
ghost use Rattle.std.specs.List.{position_or_len};
ghost use Rattle.aiger_text.specs.Lines.{cut_at, parts_of};

/// What stands before the first byte of a kind, and what stands behind it.
#[derive(Clone, Copy, Debug)]
pub struct Cut<'t> {
    pub front: &'t [u8],
    pub back: &'t [u8],
}

/// The place of the first byte of a kind, or how many bytes there are where none is of it.
#[tactic(auto, using(crate::proofs::CutSteps::place_steps))]
fn place_of(text: &[u8], byte: u8) -> usize
    ensures place { result ≡ position_or_len (λ b. b == byte) text.now }
    ensures within { result ≤ length text.now }
{
    for (place, b) in text.iter().enumerate() {
        if *b == byte {
            return place;
        }
    }
    text.len()
}

/// A text cut at its first byte of a kind, where it has one.
#[tactic(auto, using(crate::proofs::CutSteps::cut_steps))]
pub fn cut_at(text: &[u8], byte: u8) -> Option<Cut<'_>>
    ensures none { IfNone result (cut_at byte text.now ≡ None) }
    ensures some { IfSome result (λ cut. cut_at byte text.now ≡ Some (parts_of cut)) }
    ensures shorter { IfSome result (λ cut. length cut.back.now < length text.now) }
{
    let place = place_of(text, byte);
    if place == text.len() {
        return None;
    }
    let front = &text[..place];
    let back = &text[place + 1..];
    Some(Cut { front, back })
}
