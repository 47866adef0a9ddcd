ghost use Rattle.std.specs.Prelude.{◌≡◌, ◌==◌, ◌∷◌};
ghost use Rattle.std.specs.List.{slice_split};
ghost use Rattle.proof_check.specs.Pieces.{pieces_after};

/// The part of the text before the first such byte, and what follows it, where there is one.
pub(crate) fn cut_at(text: &[u8], byte: u8) -> (&[u8], Option<&[u8]>)
    ensures { slice_split (λ b. b == byte) text.now ≡ result.0.now ∷ pieces_after byte result.1 }
{
    for (place, b) in text.iter().enumerate() {
        if *b == byte {
            return (&text[..place], Some(&text[place + 1..]));
        }
    }
    (text, None)
}
