//! What is kept of a text that was read, once the text itself is let go.
ghost use Rattle.std.specs.Prelude.{◌≡◌, ℕ, List};
ghost use Rattle.sha2.specs.Sha256.{sha256};

use loc_base::Digest;
use run_digest::text_digest;

/// What is kept of a text that was read, once the text itself is let go.
///
/// Its meaning: `is_of` says of which texts it is.
pub trait Imprint: Drop {
    ghost is_of: { Self → List ℕ → Type 0 };

    /// What is kept of a text. It takes no memory.
    fn of(text: &[u8]) -> Self
        ensures { is_of result text.now };
}

/// Nothing is kept.
#[derive(Clone, Copy, Debug)]
pub struct NoImprint;

impl Imprint for NoImprint {
    ghost is_of = { λ _ _. Unit {0} };

    fn of(_text: &[u8]) -> NoImprint {
        NoImprint
    }
}

/// The SHA-256 (FIPS 180-4) of the text.
impl Imprint for Digest {
    ghost is_of = { λ digest text. digest.bytes ≡ sha256 text };

    fn of(text: &[u8]) -> Digest {
        text_digest(text)
    }
}
