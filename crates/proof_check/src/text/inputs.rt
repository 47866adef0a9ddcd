ghost use Rattle.std.specs.Prelude.{◌≡◌, ◌≢◌, IfSome, MatchOption};
ghost use Rattle.loc_base.specs.declared.digest.Digest.{Digest};
ghost use Rattle.proof_check.specs.Text.{inputs_line, IsDigest};

use hex::{decode_to_slice, encode_to_slice};
use loc_base::Digest;

/// What stands before the digest.
const BEFORE_DIGEST: &[u8; 7] = b"inputs ";

/// The digest that the line gives.
pub(crate) fn digest_of(line: &[u8]) -> Option<Digest>
    ensures { MatchOption result ((digest : Digest) → IsDigest digest → line.now ≢ inputs_line digest) (λ digest. IsDigest digest × (line.now ≡ inputs_line digest)) }
{
    let digits = line.strip_prefix(BEFORE_DIGEST.as_slice())?;
    let mut bytes = [0u8; 32];
    decode_to_slice(digits, &mut bytes).ok()?;
    let mut spelled = [0u8; 64];
    encode_to_slice(bytes.as_slice(), &mut spelled).ok()?;
    if digits == spelled.as_slice() {
        Some(Digest { bytes })
    } else {
        None
    }
}
