ghost use Rattle.std.specs.Prelude.{◌≡◌, ◌∷◌, [], ◌++◌, codes, decimal};
ghost use Rattle.std.specs.List.{flat_map};
ghost use Rattle.std.specs.Option.{option_copied};
ghost use Rattle.sha2.specs.Sha256.{sha256};
ghost use Rattle.run_digest.specs.Feeding.{Took};
ghost use Rattle.hex.specs.Hex.{encode_lower};
ghost use Rattle.run_digest.specs.Inputs.{line, joined, name_or_nothing, trace_line, scope_lines, zero_lines, inputs_text};

use crate::inputs::Inputs;
use hex::encode_to_slice;
use itoa::Buffer;
use loc_base::{Digest, Name};
use sha2::{Digest as Hasher, Sha256};

/// Feeds a line: a word, a space, what is said of it, and a newline.
fn feed_line(hasher: &mut Sha256, word: &[u8], said: &[u8])
    ensures { Took hasher.old hasher.new (line word.now said.now) }
{
    hasher.update(word);
    hasher.update(b" ");
    hasher.update(said);
    hasher.update(b"\n");
}

/// Feeds the line of a text, of which the digest is given.
fn feed_hash(hasher: &mut Sha256, word: &[u8], digest: &Digest)
    ensures { Took hasher.old hasher.new (line word.now (encode_lower digest.now.bytes)) }
{
    let mut digits = [0u8; 64];
    encode_to_slice(digest.bytes.as_slice(), &mut digits).unwrap();
    feed_line(hasher, word, digits.as_slice());
}

/// Feeds the line of the clock.
fn feed_clock(hasher: &mut Sha256, clock: Option<&Name>)
    ensures { Took hasher.old hasher.new (line (codes "clock") (name_or_nothing clock.entry)) }
{
    match clock {
        Some(name) => feed_line(hasher, b"clock", name.as_bytes()),
        None => feed_line(hasher, b"clock", b""),
    }
}

/// Feeds a comma and a name for each of some.
fn feed_others(hasher: &mut Sha256, names: &[Name])
    ensures { Took hasher.old hasher.new (flat_map (λ name. codes "," ++ name) names.now) }
{
    for name in names {
        hasher.update(b",");
        hasher.update(name.as_bytes());
    }
}

/// Feeds the line of the kinds.
fn feed_kinds(hasher: &mut Sha256, kinds: &[Name])
    ensures { Took hasher.old hasher.new (line (codes "kinds") (joined kinds.now)) }
{
    hasher.update(b"kinds ");
    if let Some((first, others)) = kinds.split_first() {
        hasher.update(first.as_bytes());
        feed_others(hasher, others);
    }
    hasher.update(b"\n");
}

/// Feeds the line of the size.
fn feed_size(hasher: &mut Sha256, size: u32)
    ensures { Took hasher.old hasher.new (line (codes "size") (decimal size)) }
{
    let mut buffer = Buffer::new();
    feed_line(hasher, b"size", buffer.format(size).as_bytes());
}

/// Feeds the line of each trace.
fn feed_traces(hasher: &mut Sha256, traces: &[Digest])
    ensures { Took hasher.old hasher.new (flat_map trace_line traces.now) }
{
    for digest in traces {
        feed_hash(hasher, b"trace", digest);
    }
}

/// Feeds the line of the scope, where one is named.
#[tactic(auto, using(crate::proofs::Taking::Took_nothing))]
fn feed_scope(hasher: &mut Sha256, scope: Option<&Name>)
    ensures { Took hasher.old hasher.new (scope_lines (option_copied scope.entry)) }
{
    if let Some(path) = scope {
        feed_line(hasher, b"scope", path.as_bytes());
    }
}

/// Feeds the line of how unknown bits of inputs are read, where they are read as 0.
#[tactic(auto, using(crate::proofs::Taking::Took_nothing))]
fn feed_zero(hasher: &mut Sha256, zero_inputs: bool)
    ensures { Took hasher.old hasher.new (zero_lines zero_inputs) }
{
    if zero_inputs {
        feed_line(hasher, b"x-inputs", b"0");
    }
}

/// The digest of a text. It takes no memory.
pub fn text_digest(text: &[u8]) -> Digest
    ensures { result.bytes ≡ sha256 text.now }
{
    Digest {
        bytes: Sha256::digest(text),
    }
}

/// The digest of a run's inputs. It takes no memory.
pub fn inputs_digest(of: &Inputs<'_>) -> Digest
    ensures { result.bytes ≡ sha256 (inputs_text of.now) }
{
    let mut hasher = Sha256::new();
    hasher.update(b"localise 1\n");
    feed_line(&mut hasher, b"top", of.top.as_bytes());
    feed_clock(&mut hasher, of.clock);
    feed_kinds(&mut hasher, of.kinds);
    feed_size(&mut hasher, of.size);
    feed_hash(&mut hasher, b"design", &of.design);
    feed_traces(&mut hasher, of.traces);
    feed_scope(&mut hasher, of.scope);
    feed_zero(&mut hasher, of.zero_inputs);
    Digest {
        bytes: hasher.finalize(),
    }
}
